//! Nodes turn by turn: what each turn and each call at a far end shows.
ghost use Rattle.std.specs.Prelude.{◌<◌, IfOk};
ghost use Rattle.graph_node.specs.Nodes.{IsSound};

use crate::far_ends::{Call, FarEnds, Seen, links, small};
use av_base::{List, NoMemory};
use av_frame::{Filter, Pools};
use filt_fan::{Split, split};
use graph_node::{Node, Turned};
use std::alloc::Global;
use std::thread::Threads;

/// A node of `split`, with the far ends of its links.
fn split_node(alloc: Global, outputs: u32) -> Result<(Node<Split>, FarEnds), NoMemory>
    requires { 0 < outputs }
    ensures { IfOk result (λ r. IsSound ⟦<Split as Filter>⟧.pads ⟦<Split as Filter>⟧.rest ⟦<Split as Filter>⟧.closes ⟦<Split as Filter>⟧.wants ⟦<Split as Filter>⟧.accepts r.0) }
{
    let (mut sources, inputs) = links(alloc, 1)?;
    let (outs, takers) = links(alloc, outputs)?;
    let shape = small();
    let filter = split(alloc, shape, outputs)?;
    let node = Node::new(alloc, filter, &[shape], List::new(inputs), List::new(outs))?;
    let far = FarEnds {
        source: sources.remove(0),
        takers,
        pools: Pools::new(alloc)?,
    };
    Ok((node, far))
}

/// Makes a turn, and returns what it shows.
fn turn<F: Filter, R: Threads + Sync>(
    node: &mut Node<F>,
    rt: &R,
    alloc: Global,
) -> Result<Seen, NoMemory>
    requires { IsSound F.pads F.rest F.closes F.wants F.accepts node.old }
    ensures { IsSound F.pads F.rest F.closes F.wants F.accepts node.new }
{
    match node.turn(rt, alloc, 1)? {
        Turned::Moved => Ok(Seen::Moved),
        Turned::Idle => Ok(Seen::Idle),
    }
}

/// Makes a call.
fn make<F: Filter, R: Threads + Sync>(
    node: &mut Node<F>,
    far: &mut FarEnds,
    rt: &R,
    alloc: Global,
    call: Call,
) -> Result<Seen, NoMemory>
    requires { IsSound F.pads F.rest F.closes F.wants F.accepts node.old }
    ensures { IsSound F.pads F.rest F.closes F.wants F.accepts node.new }
{
    match call {
        Call::Turn => turn(node, rt, alloc),
        _ => far.make(alloc, call),
    }
}

/// Makes calls in order, up to the first one that shows something else than it is to. Returns its number, and what it
/// showed.
fn first_wrong<F: Filter, R: Threads + Sync>(
    node: &mut Node<F>,
    far: &mut FarEnds,
    rt: &R,
    alloc: Global,
    calls: &[(Call, Seen)],
) -> Result<Option<(usize, Seen)>, NoMemory>
    requires { IsSound F.pads F.rest F.closes F.wants F.accepts node.old }
{
    for place in 0..calls.len() {
        let (call, wanted) = calls[place];
        let seen = make(node, far, rt, alloc, call)?;
        if seen != wanted {
            return Ok(Some((place, seen)));
        }
    }
    Ok(None)
}

/// Makes a call, and makes it once more if there was no memory.
fn make_again<F: Filter, R: Threads + Sync>(
    node: &mut Node<F>,
    far: &mut FarEnds,
    rt: &R,
    alloc: Global,
    call: Call,
) -> Result<Seen, NoMemory>
    requires { IsSound F.pads F.rest F.closes F.wants F.accepts node.old }
    ensures { IsSound F.pads F.rest F.closes F.wants F.accepts node.new }
{
    match make(node, far, rt, alloc, call) {
        Ok(seen) => Ok(seen),
        Err(NoMemory) => make(node, far, rt, alloc, call),
    }
}

/// Makes a call at the source and some turns, and takes at both outputs. Each call is made again if there was no memory.
fn passed_on<F: Filter, R: Threads + Sync>(
    node: &mut Node<F>,
    far: &mut FarEnds,
    rt: &R,
    alloc: Global,
    call: Call,
) -> Result<[Seen; 2], NoMemory>
    requires { IsSound F.pads F.rest F.closes F.wants F.accepts node.old }
    ensures { IsSound F.pads F.rest F.closes F.wants F.accepts node.new }
{
    make_again(node, far, rt, alloc, call)?;
    for _ in 0..4 {
        make_again(node, far, rt, alloc, Call::Turn)?;
    }
    let first = make_again(node, far, rt, alloc, Call::Take(0))?;
    let second = make_again(node, far, rt, alloc, Call::Take(1))?;
    Ok([first, second])
}

#[test]
fn a_picture_goes_through_turn_by_turn(rt: HostRuntime) -> Result<(), NoMemory> {
    let alloc = rt.alloc();
    let (mut node, mut far) = split_node(alloc, 1)?;
    let calls = [
        (Call::Turn, Seen::Idle),
        // A want goes back.
        (Call::Want(0), Seen::Nothing),
        (Call::Turn, Seen::Moved),
        (Call::Turn, Seen::Idle),
        (Call::Look, Seen::Wanted),
        // A picture goes through. It is sent in one turn, and goes into the ring in the next.
        (Call::Send(5), Seen::Nothing),
        (Call::Turn, Seen::Moved),
        (Call::Take(0), Seen::Nothing),
        (Call::Turn, Seen::Moved),
        (Call::Take(0), Seen::Picture(5)),
        (Call::Turn, Seen::Idle),
        // The end goes through, and the input is closed.
        (Call::End, Seen::Nothing),
        (Call::Turn, Seen::Moved),
        (Call::Look, Seen::Closed),
        (Call::Turn, Seen::Moved),
        (Call::Turn, Seen::Idle),
        (Call::Take(0), Seen::End),
    ];
    assert_eq!(rt; first_wrong(&mut node, &mut far, &rt, alloc, &calls)?, None);
    Ok(())
}

#[test]
fn a_full_ring_holds_pictures_up(rt: HostRuntime) -> Result<(), NoMemory> {
    let alloc = rt.alloc();
    let (mut node, mut far) = split_node(alloc, 1)?;
    let calls = [
        (Call::Send(6), Seen::Nothing),
        (Call::Turn, Seen::Moved),
        (Call::Send(7), Seen::Nothing),
        (Call::Turn, Seen::Moved),
        (Call::Turn, Seen::Idle),
        (Call::Take(0), Seen::Picture(6)),
        (Call::Take(0), Seen::Nothing),
        (Call::Turn, Seen::Moved),
        (Call::Take(0), Seen::Picture(7)),
        // A picture that isn't later is taken and not offered, and the next one waits behind it.
        (Call::Send(7), Seen::Nothing),
        (Call::Turn, Seen::Moved),
        (Call::Send(8), Seen::Nothing),
        (Call::Turn, Seen::Moved),
        (Call::Turn, Seen::Idle),
        (Call::Take(0), Seen::Nothing),
    ];
    assert_eq!(rt; first_wrong(&mut node, &mut far, &rt, alloc, &calls)?, None);
    Ok(())
}

#[test]
fn a_closed_output_closes_the_input(rt: HostRuntime) -> Result<(), NoMemory> {
    let alloc = rt.alloc();
    let (mut node, mut far) = split_node(alloc, 1)?;
    let calls = [
        (Call::Send(5), Seen::Nothing),
        (Call::Turn, Seen::Moved),
        (Call::Close(0), Seen::Nothing),
        (Call::Turn, Seen::Moved),
        (Call::Look, Seen::Closed),
        // What arrives now is dropped, the end too.
        (Call::Send(6), Seen::Closed),
        (Call::Turn, Seen::Moved),
        (Call::Turn, Seen::Idle),
        (Call::End, Seen::Closed),
        (Call::Turn, Seen::Moved),
        (Call::Turn, Seen::Idle),
        (Call::Take(0), Seen::Picture(5)),
        (Call::Take(0), Seen::Nothing),
        (Call::Turn, Seen::Idle),
    ];
    assert_eq!(rt; first_wrong(&mut node, &mut far, &rt, alloc, &calls)?, None);
    Ok(())
}

#[test]
fn two_outputs_get_the_same_pictures(rt: HostRuntime) -> Result<(), NoMemory> {
    let alloc = rt.alloc();
    let (mut node, mut far) = split_node(alloc, 2)?;
    let calls = [
        // One output is wanted, and both get the picture.
        (Call::Want(1), Seen::Nothing),
        (Call::Turn, Seen::Moved),
        (Call::Look, Seen::Wanted),
        (Call::Send(5), Seen::Nothing),
        (Call::Turn, Seen::Moved),
        (Call::Turn, Seen::Moved),
        (Call::Turn, Seen::Idle),
        // The next one waits at each output until its ring has room.
        (Call::Send(6), Seen::Nothing),
        (Call::Turn, Seen::Moved),
        (Call::Turn, Seen::Idle),
        (Call::Take(1), Seen::Picture(5)),
        (Call::Turn, Seen::Moved),
        (Call::Take(1), Seen::Picture(6)),
        (Call::Take(0), Seen::Picture(5)),
        (Call::Turn, Seen::Moved),
        (Call::Take(0), Seen::Picture(6)),
        (Call::Turn, Seen::Idle),
        // Both outputs are wanted, and the input is asked once.
        (Call::Want(0), Seen::Nothing),
        (Call::Turn, Seen::Moved),
        (Call::Look, Seen::Wanted),
        (Call::Want(1), Seen::Nothing),
        (Call::Turn, Seen::Moved),
        (Call::Send(7), Seen::Nothing),
        (Call::Turn, Seen::Moved),
        (Call::Turn, Seen::Moved),
        (Call::Take(0), Seen::Picture(7)),
        (Call::Take(1), Seen::Picture(7)),
    ];
    assert_eq!(rt; first_wrong(&mut node, &mut far, &rt, alloc, &calls)?, None);
    Ok(())
}

#[test]
fn an_output_goes_on_while_the_other_is_closed(rt: HostRuntime) -> Result<(), NoMemory> {
    let alloc = rt.alloc();
    let (mut node, mut far) = split_node(alloc, 2)?;
    let calls = [
        (Call::Close(0), Seen::Nothing),
        (Call::Turn, Seen::Moved),
        (Call::Look, Seen::Nothing),
        (Call::Send(5), Seen::Nothing),
        (Call::Turn, Seen::Moved),
        (Call::Turn, Seen::Moved),
        (Call::Take(0), Seen::Nothing),
        (Call::Take(1), Seen::Picture(5)),
        (Call::Close(1), Seen::Nothing),
        (Call::Turn, Seen::Moved),
        (Call::Look, Seen::Closed),
    ];
    assert_eq!(rt; first_wrong(&mut node, &mut far, &rt, alloc, &calls)?, None);
    Ok(())
}

#[test]
fn nothing_is_lost_where_memory_is_refused_once(rt: HostRuntime) -> Result<(), NoMemory> {
    let alloc = rt.alloc();
    let (mut node, mut far) = split_node(alloc, 2)?;
    let seen = passed_on(&mut node, &mut far, &rt, alloc, Call::Send(5))?;
    assert_eq!(rt; seen, [Seen::Picture(5); 2]);
    let seen = passed_on(&mut node, &mut far, &rt, alloc, Call::Send(6))?;
    assert_eq!(rt; seen, [Seen::Picture(6); 2]);
    let seen = passed_on(&mut node, &mut far, &rt, alloc, Call::End)?;
    assert_eq!(rt; seen, [Seen::End; 2]);
    Ok(())
}
