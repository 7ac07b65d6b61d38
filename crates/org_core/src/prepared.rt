//! How a reply and its moves are put together.

ghost use Rattle.std.specs.Prelude.{◌≡◌, [], IfOk, OnErr, Ok, Err};
ghost use Rattle.doc_tree.specs.Tree.{doc_of};
ghost use Rattle.org_requests.specs.Replies.{shown as spec_shown};

use crate::moves::Moves;
use crate::rules::Prepared;
use compact_json::CompactJson;
use doc_tree::{NoMemory, Tree};
use org_requests::{Reply, Stop, shown};
use std::alloc::Global;

/// 200 with a tree, which ends here.
pub fn reply_showing(alloc: Global, tree: Tree) -> Result<Reply, NoMemory>
    ensures { IfOk result (λ reply. reply ≡ spec_shown (doc_of tree)) }
{
    let reply = shown(alloc, &tree);
    drop(tree);
    reply
}

/// 200 with an object, whose text is copied.
pub fn reply_copying(alloc: Global, object: &CompactJson) -> Result<Reply, NoMemory>
    ensures { IfOk result (λ reply. reply ≡ spec_shown object.now) }
{
    Ok(Reply {
        status: 200,
        octets: false,
        body: object.bytes(alloc)?,
    })
}

/// 200 with a tree, which ends here, and no move.
pub fn prepared_showing(alloc: Global, tree: Tree) -> Result<Prepared, NoMemory>
    ensures reply { IfOk result (λ p. p.reply ≡ spec_shown (doc_of tree)) }
    ensures moves { IfOk result (λ p. p.moves ≡ []) }
{
    unmoved(alloc, reply_showing(alloc, tree))
}

/// A reply, where there was memory for it, and no move.
pub fn unmoved(alloc: Global, reply: Result<Reply, NoMemory>) -> Result<Prepared, NoMemory>
    ensures reply { IfOk result (λ p. reply ≡ Ok p.reply) }
    ensures moves { IfOk result (λ p. p.moves ≡ []) }
{
    Ok(Prepared {
        reply: reply?,
        moves: Moves::new(alloc),
    })
}

/// A reply with its moves, where there was memory for both.
pub fn with_moves(
    reply: Result<Reply, NoMemory>,
    moves: Result<Moves, NoMemory>,
) -> Result<Prepared, NoMemory>
    ensures reply { IfOk result (λ p. reply ≡ Ok p.reply) }
    ensures moves { IfOk result (λ p. moves ≡ Ok p.moves) }
{
    match moves {
        Ok(moves) => moving(reply, moves),
        Err(fault) => {
            drop(reply);
            Err(fault)
        }
    }
}

/// A reply, where there was memory for it, with these moves.
fn moving(reply: Result<Reply, NoMemory>, moves: Moves) -> Result<Prepared, NoMemory>
    ensures reply { IfOk result (λ p. reply ≡ Ok p.reply) }
    ensures moves { IfOk result (λ p. p.moves ≡ moves) }
{
    match reply {
        Ok(reply) => Ok(Prepared { reply, moves }),
        Err(fault) => {
            drop(moves);
            Err(fault)
        }
    }
}

/// What was prepared, or want of memory as what stops a request.
pub fn or_stop(prepared: Result<Prepared, NoMemory>) -> Result<Prepared, Stop>
    ensures ok { IfOk prepared (λ p. result ≡ Ok p) }
    ensures err { OnErr prepared (result ≡ Err Stop.NoMemory) }
{
    Ok(prepared?)
}
