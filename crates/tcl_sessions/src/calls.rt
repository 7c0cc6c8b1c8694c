//! Calls that left the tree.
ghost use Rattle.std.specs.Prelude.{◌≡◌};
ghost use Rattle.tcl_flow.specs.View.{completion_of};
ghost use Rattle.tcl_sessions.specs.Calls.{Abandons, Answers, call_words, ended_by};

use crate::outcome::Outcome;
use crate::refusal::Refusal;
use crate::session::Session;
use std::alloc::Global;
use tcl_flow::completion::{Completion, Options, RETURN};
use tcl_flow::returning::make_return;
use tcl_text::text::Text;
use tcl_value::value::Value;

/// The completion that this code and this text are; of the code 2 that of `return` of the text.
fn completion_of(code: i64, text: Value) -> Completion
    ensures { completion_of result ≡ ended_by code text }
{
    if code == RETURN {
        return make_return(Options::new(), text);
    }
    Completion::new(code, text)
}

impl Session {
    /// Ends the open call by a completion, and evaluates on.
    ///
    /// # Errors
    /// 425, which changes nothing. 401, by which the evaluation is given up.
    pub fn answer(&mut self, alloc: Global, code: i64, text: Value) -> Result<Outcome, Refusal>
        ensures { Answers self.old code text result self.new }
    {
        let Some(evaluation) = self.waiting.take() else {
            return Err(Refusal::NoCallOpen);
        };
        self.standing.add(completion_of(code, text))?;
        self.run(alloc, evaluation)
    }

    /// Gives up the evaluation that waits. The tree is as before it; what the host was asked for
    /// stays done.
    ///
    /// # Errors
    /// 425.
    pub fn abandon(&mut self) -> Result<(), Refusal>
        ensures { Abandons self.old result self.new }
    {
        match self.waiting.take() {
            Some(_evaluation) => {
                self.standing.begin();
                Ok(())
            }
            None => Err(Refusal::NoCallOpen),
        }
    }

    /// The words of the open call; none where no call is open.
    pub fn call_words(&self) -> &[Text]
        ensures { result.now ≡ call_words self.now.waiting self.now.standing.call }
    {
        if self.waiting.is_none() {
            return &[];
        }
        match &self.standing.call {
            Some(call) => call.words.as_slice(),
            None => &[],
        }
    }
}
