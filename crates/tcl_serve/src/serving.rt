//! A session, from its first line to its last.
ghost use Rattle.std.specs.Prelude.{◌≡◌, None, Some};
ghost use Rattle.tcl_serve.specs.Views.{ClientView};
ghost use Rattle.tcl_serve.specs.Serving.{IsServed, Turns};

use crate::client::Client;
use crate::lines::Ending;
use crate::session::Session;
use std::alloc::Global;
use std::io::{BufRead, Write};

/// Serves the client at the other end of a reader and a writer: each line that is read is answered
/// by one that is written, and a call that leaves a tree is a line of its own, until no line can be
/// read, or one can't be written. Says why.
pub fn serve<R: BufRead + Drop, W: Write + Drop>(alloc: Global, reader: R, writer: W) -> Ending
    ensures { IsServed (R.remaining reader) (W.contents writer) result }
{
    let mut client = Client::new(alloc, reader, writer);
    let mut session = Session::new(alloc);
    'lines: for line in 0..u64::MAX {
        if let Some(ending) = client.ending() {
            return ending;
        }
        client = serve_line(alloc, client, &mut session);
    }
    // So many lines take longer than anybody waits.
    Ending::Memory
}

/// Serves a line.
fn serve_line<R: BufRead + Drop, W: Write + Drop>(
    alloc: Global,
    client: Client<R, W>,
    session: &mut Session,
) -> Client<R, W>
    requires { client.lines.ending ≡ None }
    ensures { Turns client session.old result session.new }
{
    let mut client = client;
    match client.hear(alloc) {
        Some((id, message)) => {
            let (mut client, answer) = session.answer(alloc, client, message);
            client.reply(alloc, id, answer);
            client
        }
        None => client,
    }
}
