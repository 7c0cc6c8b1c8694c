//! Steps on the nodes alone.
ghost use Rattle.std.specs.Prelude.{◌≡◌, ◌≢◌, ◌<◌, ◌++◌, ◌∷◌, [], List, ℕ, cond, Some, None};
ghost use Rattle.std.specs.Prelude.{OnOk, IfOk, IfSome, IsSome, ◌&&◌};
ghost use Rattle.std.specs.Str.{bytes_eq};
ghost use Rattle.slab.specs.Slab.{get, HasRoomFor};
ghost use Rattle.indexmap.specs.IndexMap as map;
ghost use Rattle.tcl_interpreter.specs.declared.node.Node.{Node};
ghost use Rattle.tcl_interpreter.specs.Names.{is_command_name};
ghost use Rattle.tcl_interpreter.specs.Nodes.{SameTable, Attached, Joined, Detached, shape_of};
ghost use Rattle.tcl_interpreter.specs.Nodes.{Departed, Eased, view_of, with_child, without_child};

use crate::command::Command;
use crate::name::is_command_name;
use crate::node::Node;
use slab::Slab;
use std::alloc::AllocError;
use tcl_text::text::Text;

// Makes room in a node for one more child, and for its command.
fn make_room_in(node: &mut Node) -> Result<(), AllocError>
    ensures same { shape_of node.new ≡ shape_of node.old }
    ensures children { OnOk result (0 < map.spare node.new.children) }
    ensures commands { OnOk result (0 < map.spare node.new.state.commands) }
{
    node.children.reserve(1)?;
    node.state.commands.reserve(1)
}

/// Makes room for one more node, and for one more child of the node at the key.
pub fn make_room(nodes: &mut Slab<Node>, key: usize) -> Result<(), AllocError>
    ensures same { SameTable nodes.old nodes.new }
    ensures room { OnOk result (HasRoomFor nodes.new 1) }
    ensures spare { OnOk result (IfSome (get nodes.new key) (λ node. 0 < map.spare node.children)) }
    ensures spare_commands { OnOk result
        (IfSome (get nodes.new key) (λ node. 0 < map.spare node.state.commands)) }
{
    nodes.reserve(1)?;
    match nodes.get_mut(key) {
        Some(node) => make_room_in(node),
        None => Ok(()),
    }
}

// Whether all names are known to be plain still, where this one comes to them.
fn still_plain(plain: bool, name: &Text) -> bool
    ensures { result ≡ (plain && is_command_name name.now) }
{
    plain && is_command_name(name)
}

// Adds the key of a child under its name, and its command, where there is room.
fn add_child(up: &mut Node, label: Text, twin: Text, key: usize)
    requires same { twin ≡ label }
    requires spare { 0 < map.spare up.old.children }
    requires spare_commands { 0 < map.spare up.old.state.commands }
    requires absent { map.get bytes_eq up.old.children label ≡ None }
    requires free { map.get bytes_eq up.old.state.commands label ≡ None }
    ensures parent { up.new.parent ≡ up.old.parent }
    ensures name { up.new.name ≡ up.old.name }
    ensures level { up.new.level ≡ up.old.level }
    ensures gone { up.new.gone ≡ up.old.gone }
    ensures view { view_of up.new ≡ with_child label (view_of up.old) }
    ensures gets { (q : List ℕ) →
        map.get bytes_eq up.new.children q
        ≡ cond (bytes_eq label q) (Some key) (map.get bytes_eq up.old.children q) }
{
    let _ = up.children.insert(label, key);
    up.state.knows_plain_names = still_plain(up.state.knows_plain_names, &twin);
    let _ = up.state.commands.insert(twin, Command::Child);
}

/// Adds a node as the child of another, where there is room.
pub fn attach(nodes: &mut Slab<Node>, parent: usize, label: Text, twin: Text, node: Node)
    requires same { twin ≡ label }
    requires room { HasRoomFor nodes.old 1 }
    requires there { IsSome (get nodes.old parent) }
    requires spare { IfSome (get nodes.old parent) (λ up. 0 < map.spare up.children) }
    requires spare_commands { IfSome (get nodes.old parent)
        (λ up. 0 < map.spare up.state.commands) }
    requires absent { IfSome (get nodes.old parent)
        (λ up. map.get bytes_eq up.children label ≡ None) }
    requires free { IfSome (get nodes.old parent)
        (λ up. map.get bytes_eq up.state.commands label ≡ None) }
    ensures { Attached nodes.old nodes.new parent label node }
{
    let key = nodes.insert_reserved(node);
    if let Some(up) = nodes.get_mut(parent) {
        add_child(up, label, twin, key);
    }
}

// Adds the key of a child under its name.
fn add_key(up: &mut Node, label: Text, key: usize) -> Result<(), AllocError>
    requires absent { map.get bytes_eq up.old.children label ≡ None }
    ensures parent { up.new.parent ≡ up.old.parent }
    ensures name { up.new.name ≡ up.old.name }
    ensures level { up.new.level ≡ up.old.level }
    ensures gone { up.new.gone ≡ up.old.gone }
    ensures state { up.new.state ≡ up.old.state }
    ensures names { OnOk result
        (map.keys up.new.children ≡ map.keys up.old.children ++ label ∷ []) }
    ensures gets { OnOk result ((q : List ℕ) →
        map.get bytes_eq up.new.children q
        ≡ cond (bytes_eq label q) (Some key) (map.get bytes_eq up.old.children q)) }
{
    up.children.insert(label, key)?;
    Ok(())
}

/// Adds a node as the child of another, which gets no command by that, and answers with its key.
pub fn join(
    nodes: &mut Slab<Node>,
    parent: usize,
    label: Text,
    node: Node,
) -> Result<usize, AllocError>
    requires there { IsSome (get nodes.old parent) }
    requires absent { IfSome (get nodes.old parent)
        (λ up. map.get bytes_eq up.children label ≡ None) }
    ensures joined { IfOk result
        (λ key. (j : Joined nodes.old nodes.new parent label node key) ×
        (j.new.state ≡ j.old.state)) }
{
    let key = nodes.insert(node)?;
    match nodes.get_mut(parent) {
        Some(up) => add_key(up, label, key)?,
        None => unreachable!(),
    }
    Ok(key)
}

// Takes a child's name away, and its command.
fn remove_child(up: &mut Node, name: &Text)
    ensures parent { up.new.parent ≡ up.old.parent }
    ensures name { up.new.name ≡ up.old.name }
    ensures level { up.new.level ≡ up.old.level }
    ensures gone { up.new.gone ≡ up.old.gone }
    ensures view { view_of up.new ≡ without_child name.now (view_of up.old) }
    ensures gets { (q : List ℕ) →
        map.get bytes_eq up.new.children q
        ≡ cond (bytes_eq name.now q) None (map.get bytes_eq up.old.children q) }
{
    up.children.shift_remove(name);
    up.state.commands.shift_remove(name);
}

// Removes a node, and its name among the children and the commands of its parent. There is room for
// it under its key.
fn take_out(nodes: &mut Slab<Node>, key: usize, parent: usize) -> Node
    requires there { IsSome (get nodes.old key) }
    requires parent { IsSome (get nodes.old parent) }
    requires apart { parent ≢ key }
    ensures node { get nodes.old key ≡ Some result }
    ensures detached { Detached nodes.old nodes.new key result parent }
    ensures next { nodes.new.vacant_key ≡ key }
    ensures room { HasRoomFor nodes.new 1 }
{
    let node = nodes.remove(key);
    if let Some(up) = nodes.get_mut(parent) {
        remove_child(up, &node.name);
    }
    node
}

/// Takes a node out of the children and the commands of its parent. Where no evaluation is in
/// progress in it, it is removed; else it stays under its key, as one that is gone.
pub fn detach(nodes: &mut Slab<Node>, key: usize, parent: usize)
    requires there { IsSome (get nodes.old key) }
    requires parent { IsSome (get nodes.old parent) }
    requires apart { parent ≢ key }
    ensures { (node : Node) → get nodes.old key ≡ Some node →
        Departed nodes.old nodes.new key node parent }
{
    let mut node = take_out(nodes, key, parent);
    if node.state.depth == 0 {
        return;
    }
    node.gone = true;
    nodes.insert_reserved(node);
}

/// Takes a level of depth from a node, and removes it where that was its last. It isn't inlined, so
/// that the end of an evaluation in a node that stands costs little.
#[inline(never)]
pub fn ease(nodes: &mut Slab<Node>, key: usize)
    requires there { IsSome (get nodes.old key) }
    ensures eased { (node : Node) → get nodes.old key ≡ Some node →
        Eased nodes.old nodes.new key node }
{
    let Some(node) = nodes.get(key) else {
        unreachable!();
    };
    if node.state.depth <= 1 {
        nodes.remove(key);
        return;
    }
    if let Some(node) = nodes.get_mut(key) {
        node.state.depth -= 1;
    }
}
