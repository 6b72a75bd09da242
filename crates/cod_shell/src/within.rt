//! The numbers of a run's entries are within their types. These functions do nothing: they tell what the types have.
ghost use Rattle.std.specs.Prelude.{All};
ghost use Rattle.cod_text.specs.Unique.{CallFits, CauseFits, EntryFits, ReplyFits};
ghost use Rattle.cod_shell.specs.Numbers.{AllFit, ReasonFits};

use cod_chronicle::{Cause, Chronicle, Entry, Stands};
use cod_types::{Call, Caller, NodeId, Reason, Reply, Why};

fn call(call: &Call)
    ensures { CallFits call.now }
{
    match call {
        Call::Read { off, len } => {
            let _off = *off;
            let _len = *len;
        }
        Call::Write { off, bytes } => {
            let _off = *off;
            let _bytes = bytes.as_slice();
        }
        Call::Swap { off, old, new } => {
            let _off = *off;
            let _old = old.as_slice();
            let _new = new.as_slice();
        }
        Call::Put { bytes } => {
            let _bytes = bytes.as_slice();
        }
        Call::Drain { node: NodeId(node) } => {
            let _node = *node;
        }
        Call::Merge | Call::Tick | Call::Rebuild | Call::Upgrade => {}
    }
}

fn reason(reason: &Reason)
    ensures { ReasonFits reason.now }
{
    let _node = reason.node.0;
    match &reason.why {
        Why::Down(line) => {
            let _line = *line;
        }
        Why::Free(bytes) => {
            let _bytes = *bytes;
        }
        Why::Fault(count) => {
            let _count = *count;
        }
    }
}

fn reasons(reasons: &[Reason])
    ensures { All ReasonFits reasons.now }
{
    for r in reasons {
        reason(r);
    }
}

fn reply(reply: &Reply)
    ensures { ReplyFits reply.now }
{
    match reply {
        Reply::Bytes(bytes) | Reply::Differs(bytes) => {
            let _bytes = bytes.as_slice();
        }
        Reply::Rebuilt {
            col,
            node: NodeId(node),
        }
        | Reply::Shifted {
            col,
            node: NodeId(node),
        } => {
            let _col = *col;
            let _node = *node;
        }
        Reply::NoSpare(list) => reasons(list.as_slice()),
        _ => {}
    }
}

fn cause(cause: &Cause)
    ensures { CauseFits cause.now }
{
    match cause {
        Cause::Killed(line) => {
            let _line = *line;
        }
        Cause::Fault(count) => {
            let _count = *count;
        }
    }
}

fn entry(entry: &Entry)
    ensures { EntryFits entry.now }
{
    match entry {
        Entry::Call {
            caller: Caller(who),
            number,
            stamp,
            call: asked,
            reply: told,
        } => {
            let _who = *who;
            let _number = *number;
            let _stamp = *stamp;
            call(asked);
            reply(told);
        }
        Entry::Down {
            stamp,
            col,
            node: NodeId(node),
            cause: by,
        } => {
            let _stamp = *stamp;
            let _col = *col;
            let _node = *node;
            cause(by);
        }
        Entry::Up {
            stamp,
            col,
            node: NodeId(node),
        }
        | Entry::Move {
            stamp,
            col,
            node: NodeId(node),
        } => {
            let _stamp = *stamp;
            let _col = *col;
            let _node = *node;
        }
    }
}

fn entries(chronicle: &Chronicle)
    ensures { All EntryFits chronicle.now }
{
    for e in chronicle.iter() {
        entry(e);
    }
}

/// The numbers of all entries for which these values stand are within their types.
pub fn all_fit<T: Stands>(all: &[T])
    ensures { AllFit T.entries all.now }
{
    for value in all {
        entries(value.chronicle());
    }
}
