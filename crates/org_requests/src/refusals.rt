//! The refusals of a request: the status and the text that each is answered with.

ghost use Rattle.std.specs.Prelude.{◌≡◌, IfOk, false, codes, string_bytes};
ghost use Rattle.std.specs.List.{join_by};
ghost use Rattle.doc_tree.specs.Tree.{doc_of};
ghost use Rattle.org_requests.specs.Replies as replies;
ghost use Rattle.org_requests.specs.Refusals as spec;

use crate::replies::{Reply, with_key};
use access_lists::Perm;
use doc_tree::{Bytes, Fields, Name, Names, NoMemory, Text, Tree, Trees};
use http::StatusCode;
use itoa::Buffer;
use sandboxes::{Checksum, Sums};
use std::alloc::Global;

/// Why a request is refused.
#[derive(Drop)]
pub enum Refusal {
    /// 413: the body has more than 4,194,304 bytes.
    TooLarge,
    /// 406: the version of the API is none that is taken.
    VersionNotTaken,
    /// 501: the path is left out.
    NotImplemented,
    /// 404: no route has the path, or the organisation or the object that it names isn't there.
    NotFound,
    /// 405: the route hasn't the method, or the object stays as it is.
    NotAllowed,
    /// 401: the caller is no client or user of the organisation, and isn't the operator.
    UnknownCaller,
    /// 400: the body isn't JSON.
    NotJson,
    /// 400: the body nests more than 100 deep.
    TooDeep,
    /// 400: a number in the body isn't whole.
    NotWhole,
    /// 400: this field of the body hasn't its form.
    BadField(Text),
    /// 403: the caller lacks this permission, the first of those that are needed.
    Forbidden(Perm),
    /// 409: what the request would create is there.
    AlreadyExists,
    /// 400: no file of these checksums is there.
    MissingChecksums(Sums),
    /// 400: the checksum of the file that was sent isn't the one that was asked for.
    DigestDiffers {
        /// The file's own checksum.
        found: Checksum,
        /// The checksum in the path.
        asked: Checksum,
    },
    /// 409: the organisation has made 2^64-1 sandboxes.
    SandboxesAtEnd,
    /// 400: this parameter of the query hasn't its form.
    BadParameter(Text),
    /// 400: the parameter `q` of a search spells no query. So many bytes of it are the longest front that begins one.
    BadQuery(usize),
    /// 409: the cookbook version is frozen.
    Frozen,
    /// 409: the revision of the policy is there with another content.
    RevisionDiffers,
    /// 400: the artifact that a lock names, of this cookbook and with this identifier, isn't there.
    MissingArtifact(Text, Text),
    /// 412: no set of cookbook versions meets the run list. Both lists are of its cookbooks, in the order of
    /// their bytes.
    Unsolvable {
        /// Those that the organisation hasn't.
        no_cookbook: Names,
        /// Those that it has, and of which no version may be chosen.
        no_version: Names,
    },
}

/// Why a request isn't done: it is refused, or no memory was left for it.
#[derive(Drop)]
pub enum Stop {
    /// It is refused.
    Refused(Refusal),
    /// No memory was left for it. It changes nothing.
    NoMemory,
}

impl From<NoMemory> for Stop {
    ghost use Rattle.std.specs.Prelude.{◌≡◌};
    ghost use Rattle.org_requests.specs.declared.refusals.Stop.TheVariants.{NoMemory as Short};

    ghost from_gives = { λ _ e. e ≡ Short };

    fn from(_cause: NoMemory) -> Stop {
        Stop::NoMemory
    }
}

impl Refusal {
    /// The reply that tells of the refusal. Only those that tell more than fixed words take memory: `BadField`,
    /// `BadParameter`, `BadQuery`, `MissingChecksums`, `DigestDiffers`, `MissingArtifact` and `Unsolvable`.
    #[tactic(auto, unfolding(json::specs::Print::escape_byte))]
    pub fn reply(self, alloc: Global) -> Result<Reply, NoMemory>
        ensures { IfOk result (λ reply. reply ≡ spec.reply_to self) }
    {
        match self {
            Refusal::TooLarge => Ok(refused(
                StatusCode::PAYLOAD_TOO_LARGE,
                b"{\"error\":[\"body is too large\"]}",
            )),
            Refusal::VersionNotTaken => Ok(refused(
                StatusCode::NOT_ACCEPTABLE,
                b"{\"error\":[\"api version is not taken\"]}",
            )),
            Refusal::NotImplemented => Ok(refused(
                StatusCode::NOT_IMPLEMENTED,
                b"{\"error\":[\"not implemented\"]}",
            )),
            Refusal::NotFound => Ok(refused(StatusCode::NOT_FOUND, b"{\"error\":[\"not found\"]}")),
            Refusal::NotAllowed => Ok(refused(
                StatusCode::METHOD_NOT_ALLOWED,
                b"{\"error\":[\"not allowed\"]}",
            )),
            Refusal::UnknownCaller => Ok(refused(
                StatusCode::UNAUTHORIZED,
                b"{\"error\":[\"caller is not known\"]}",
            )),
            Refusal::NotJson => Ok(bad_request(b"{\"error\":[\"body is not JSON\"]}")),
            Refusal::TooDeep => Ok(bad_request(b"{\"error\":[\"body is too deep\"]}")),
            Refusal::NotWhole => Ok(bad_request(b"{\"error\":[\"number is not whole\"]}")),
            Refusal::BadField(field) => bad_field(alloc, &field),
            Refusal::AlreadyExists => Ok(refused(
                StatusCode::CONFLICT,
                b"{\"error\":[\"already exists\"]}",
            )),
            Refusal::Forbidden(permission) => Ok(forbidden(permission)),
            Refusal::MissingChecksums(sums) => missing_checksums(alloc, &sums),
            Refusal::DigestDiffers { found, asked } => digest_differs(alloc, found, asked),
            Refusal::SandboxesAtEnd => Ok(refused(
                StatusCode::CONFLICT,
                b"{\"error\":[\"sandbox count is at its end\"]}",
            )),
            Refusal::BadParameter(name) => bad_parameter(alloc, &name),
            Refusal::BadQuery(place) => bad_query(alloc, place),
            Refusal::Frozen => Ok(refused(StatusCode::CONFLICT, b"{\"error\":[\"frozen\"]}")),
            Refusal::RevisionDiffers => Ok(refused(
                StatusCode::CONFLICT,
                b"{\"error\":[\"revision differs\"]}",
            )),
            Refusal::MissingArtifact(cookbook, identifier) => {
                missing_artifact(alloc, &cookbook, &identifier)
            }
            Refusal::Unsolvable {
                no_cookbook,
                no_version,
            } => unsolvable(alloc, &no_cookbook, &no_version),
        }
    }
}

/// The reply to want of memory. It is constant and takes no memory.
#[tactic(auto, unfolding(json::specs::Print::escape_byte))]
pub fn out_of_memory() -> Reply
    ensures { result ≡ spec.out_of_memory }
{
    refused(
        StatusCode::INTERNAL_SERVER_ERROR,
        b"{\"error\":[\"out of memory\"]}",
    )
}

#[tactic(auto, unfolding(json::specs::Print::escape_byte))]
fn forbidden(permission: Perm) -> Reply
    ensures { result ≡ spec.reply_to (Refusal.Forbidden permission) }
{
    refused(
        StatusCode::FORBIDDEN,
        match permission {
            Perm::Create => b"{\"error\":[\"missing create permission\"]}",
            Perm::Read => b"{\"error\":[\"missing read permission\"]}",
            Perm::Update => b"{\"error\":[\"missing update permission\"]}",
            Perm::Delete => b"{\"error\":[\"missing delete permission\"]}",
            Perm::Grant => b"{\"error\":[\"missing grant permission\"]}",
        },
    )
}

fn bad_field(alloc: Global, field: &Text) -> Result<Reply, NoMemory>
    ensures { IfOk result (λ reply. reply ≡ spec.reply_to (Refusal.BadField field.now)) }
{
    let mut words = String::from_str(alloc, "bad field ")?;
    words.push_str(field.as_str())?;
    bad_request_of(alloc, words)
}

fn bad_parameter(alloc: Global, name: &Text) -> Result<Reply, NoMemory>
    ensures { IfOk result (λ reply. reply ≡ spec.reply_to (Refusal.BadParameter name.now)) }
{
    let mut words = String::from_str(alloc, "bad parameter ")?;
    words.push_str(name.as_str())?;
    bad_request_of(alloc, words)
}

fn bad_query(alloc: Global, place: usize) -> Result<Reply, NoMemory>
    ensures { IfOk result (λ reply. reply ≡ spec.reply_to (Refusal.BadQuery place)) }
{
    let mut digits = Buffer::new();
    let mut words = String::from_str(alloc, "bad query at ")?;
    words.push_str(digits.format(place))?;
    bad_request_of(alloc, words)
}

fn missing_artifact(alloc: Global, cookbook: &Text, identifier: &Text) -> Result<Reply, NoMemory>
    ensures { IfOk result (λ reply. reply ≡ spec.reply_to (Refusal.MissingArtifact cookbook.now identifier.now)) }
{
    let mut words = String::from_str(alloc, "missing artifact ")?;
    words.push_str(cookbook.as_str())?;
    words.push_str("/")?;
    words.push_str(identifier.as_str())?;
    bad_request_of(alloc, words)
}

fn unsolvable(alloc: Global, no_cookbook: &Names, no_version: &Names) -> Result<Reply, NoMemory>
    ensures { IfOk result (λ reply. reply ≡ spec.reply_to (Refusal.Unsolvable no_cookbook.now no_version.now)) }
{
    let mut errors = Trees::new(alloc);
    errors.push(unsolvable_tree(alloc, no_cookbook, no_version)?)?;
    with_key(
        alloc,
        StatusCode::PRECONDITION_FAILED,
        "error",
        Tree::List(errors),
    )
}

fn unsolvable_tree(alloc: Global, no_cookbook: &Names, no_version: &Names) -> Result<Tree, NoMemory>
    ensures { IfOk result (λ tree. doc_of tree ≡ spec.unsolvable_doc no_cookbook.now no_version.now) }
{
    let message = Text::from_str(alloc, "no set of cookbook versions meets the run list")?;
    let mut fields = Fields::with_capacity(alloc, 3)?;
    fields.put(
        Text::from_str(alloc, "cookbooks_with_no_versions")?,
        names_tree(alloc, no_version.as_slice())?,
    )?;
    fields.put(Text::from_str(alloc, "message")?, Tree::Words(message))?;
    fields.put(
        Text::from_str(alloc, "non_existent_cookbooks")?,
        names_tree(alloc, no_cookbook.as_slice())?,
    )?;
    Ok(Tree::Dict(fields))
}

fn names_tree(alloc: Global, names: &[Name]) -> Result<Tree, NoMemory>
    ensures { IfOk result (λ tree. doc_of tree ≡ spec.names_doc names.now) }
{
    let mut trees = Trees::with_capacity(alloc, names.len())?;
    for name in names {
        trees.push(Tree::Words(name.as_text().copy(alloc)?))?;
    }
    Ok(Tree::List(trees))
}

// The checksums stand in the order of their bytes.
fn missing_checksums(alloc: Global, sums: &Sums) -> Result<Reply, NoMemory>
    ensures { IfOk result (λ reply. reply ≡ spec.reply_to (Refusal.MissingChecksums sums.now)) }
{
    let mut words = String::from_str(alloc, "missing checksums: ")?;
    words.push_str(named(alloc, sums.as_slice())?.as_str())?;
    bad_request_of(alloc, words)
}

// Checksums, with a comma and a space between each two.
fn named(alloc: Global, sums: &[Checksum]) -> Result<String, NoMemory>
    ensures { IfOk result (λ text. string_bytes text ≡ join_by (λ sum. sum) (codes ", ") sums.now) }
{
    let mut names = Vec::new(alloc);
    for sum in sums {
        names.push(sum.as_str())?;
    }
    Ok(names.as_slice().join(alloc, ", ")?)
}

fn digest_differs(alloc: Global, found: Checksum, asked: Checksum) -> Result<Reply, NoMemory>
    ensures { IfOk result (λ reply. reply ≡ spec.reply_to (Refusal.DigestDiffers found asked)) }
{
    let mut words = String::from_str(alloc, "digest is ")?;
    words.push_str(found.as_str())?;
    words.push_str(", not ")?;
    words.push_str(asked.as_str())?;
    bad_request_of(alloc, words)
}

// 400 with these words.
fn bad_request_of(alloc: Global, words: String) -> Result<Reply, NoMemory>
    ensures { IfOk result (λ reply. reply ≡ replies.with_body 400 (spec.error_body (string_bytes words))) }
{
    let mut messages = Trees::new(alloc);
    messages.push(Tree::Words(Text::of(words)))?;
    with_key(
        alloc,
        StatusCode::BAD_REQUEST,
        "error",
        Tree::List(messages),
    )
}

fn bad_request(body: &'static [u8]) -> Reply
    ensures { result ≡ record { status = 400; octets = false; body = body.now } }
{
    refused(StatusCode::BAD_REQUEST, body)
}

fn refused(status: StatusCode, body: &'static [u8]) -> Reply
    ensures { result ≡ record { status = status; octets = false; body = body.now } }
{
    Reply {
        status: status.as_u16(),
        octets: false,
        body: Bytes::constant(body),
    }
}
