//! A reply, before it is written as a message.

ghost use Rattle.std.specs.Prelude.{◌≡◌, ◌++◌, IfOk, cond, true};
ghost use Rattle.doc_tree.specs.Tree.{doc_of};
ghost use Rattle.doc_tree.specs.Valid.{InOrder};
ghost use Rattle.org_requests.specs.Replies as spec;

use doc_tree::{Bytes, Fields, NoMemory, Text, Tree, json_text};
use http::StatusCode;
use std::alloc::Global;

/// The front of the paths of organisations.
pub const ORGANISATIONS: &str = "/organizations/";

/// A reply: its status (RFC 9110, section 15), whether its body is raw bytes and not JSON, and its
/// body.
#[derive(Drop)]
pub struct Reply {
    /// The status code.
    pub status: u16,
    /// Whether the body is `application/octet-stream`. Any other is `application/json`.
    pub octets: bool,
    /// The body.
    pub body: Bytes,
}

/// 200 with what was asked for.
pub fn shown(alloc: Global, tree: &Tree) -> Result<Reply, NoMemory>
    ensures { IfOk result (λ reply. reply ≡ spec.shown (doc_of tree.now)) }
{
    with_body(alloc, StatusCode::OK, tree)
}

/// 200 with a dict of one key.
pub fn shown_key(alloc: Global, key: &str, tree: Tree) -> Result<Reply, NoMemory>
    ensures { IfOk result (λ reply. reply ≡ spec.shown (spec.one_key key.now (doc_of tree))) }
{
    with_key(alloc, StatusCode::OK, key, tree)
}

/// 200 with each name and its path, which is the name behind this front.
pub fn shown_paths(alloc: Global, front: &str, names: &[Text]) -> Result<Reply, NoMemory>
    requires { InOrder names.now }
    ensures { IfOk result (λ reply. reply ≡ spec.shown (spec.paths_behind front.now names.now)) }
{
    let mut fields = Fields::new(alloc);
    for name in names {
        let path = Text::joined(alloc, front, name.as_str())?;
        fields.push(name.copy(alloc)?, Tree::Words(path))?;
    }
    shown(alloc, &Tree::Dict(fields))
}

/// 201 with the path of what was created.
pub fn created(alloc: Global, uri: Text) -> Result<Reply, NoMemory>
    ensures { IfOk result (λ reply. reply ≡ spec.created uri) }
{
    with_key(alloc, StatusCode::CREATED, "uri", Tree::Words(uri))
}

/// 201 with what was made.
pub fn made(alloc: Global, tree: &Tree) -> Result<Reply, NoMemory>
    ensures { IfOk result (λ reply. reply ≡ spec.with_body 201 (doc_of tree.now)) }
{
    with_body(alloc, StatusCode::CREATED, tree)
}

/// 201 with what is new, and 200 with what stood there before.
pub fn made_or_shown(alloc: Global, is_new: bool, tree: &Tree) -> Result<Reply, NoMemory>
    ensures { IfOk result (λ reply. reply ≡ spec.with_body (cond is_new 201 200) (doc_of tree.now)) }
{
    if is_new {
        made(alloc, tree)
    } else {
        shown(alloc, tree)
    }
}

/// 200 with these bytes, which aren't JSON.
pub fn given(body: Bytes) -> Reply
    ensures { result ≡ record { status = 200; octets = true; body = body } }
{
    Reply {
        status: StatusCode::OK.as_u16(),
        octets: true,
        body,
    }
}

/// A reply with a dict of one key as its body.
pub(crate) fn with_key(
    alloc: Global,
    status: StatusCode,
    key: &str,
    tree: Tree,
) -> Result<Reply, NoMemory>
    ensures { IfOk result (λ reply. reply ≡ spec.with_body status (spec.one_key key.now (doc_of tree))) }
{
    let mut fields = Fields::new(alloc);
    fields.put(Text::from_str(alloc, key)?, tree)?;
    with_body(alloc, status, &Tree::Dict(fields))
}

fn with_body(alloc: Global, status: StatusCode, tree: &Tree) -> Result<Reply, NoMemory>
    ensures { IfOk result (λ reply. reply ≡ spec.with_body status (doc_of tree.now)) }
{
    Ok(Reply {
        status: status.as_u16(),
        octets: false,
        body: json_text(alloc, tree)?,
    })
}

/// The path of an organisation.
pub fn org_uri(alloc: Global, org: &Text) -> Result<Text, NoMemory>
    ensures { IfOk result (λ uri. uri ≡ spec.org_uri org.now) }
{
    Text::joined(alloc, ORGANISATIONS, org.as_str())
}
