//! The parameters of a request target's query, form-decoded.
ghost use Rattle.http_routes.specs.Parameters.{parameter_of, parameters_in, query_in};
ghost use Rattle.form_urlencoded.specs.Form.{raw_pairs};
ghost use Rattle.std.specs.Prelude.{◌≡◌, IfOk, map};

use doc_tree::{NoMemory, Text};
use form_urlencoded::parse;
use org_requests::{Parameter, Parameters};
use std::alloc::Global;

/// The parameters of a target: what stands behind its first `?`, cut at each `&`, each with a name
/// and behind `=` a value, both form-decoded. Bytes that aren't UTF-8 are replaced by U+FFFD.
pub fn parameters_of(alloc: Global, target: &[u8]) -> Result<Parameters, NoMemory>
    ensures { IfOk result (λ parameters. parameters ≡ parameters_in target.now) }
{
    parameters_from(alloc, query_of(target))
}

fn query_of(target: &[u8]) -> &[u8]
    ensures { result.now ≡ query_in target.now }
{
    match target.iter().position(|byte| *byte == b'?') {
        Some(end) => &target[end + 1..],
        None => &[],
    }
}

fn parameters_from(alloc: Global, query: &[u8]) -> Result<Parameters, NoMemory>
    ensures { IfOk result (λ parameters. parameters ≡ map parameter_of (raw_pairs query.now)) }
{
    let mut parameters = Parameters::new(alloc);
    for pair in parse(alloc, query) {
        let (name, value) = pair?;
        parameters.push(Parameter {
            name: Text::from_str(alloc, &name)?,
            value: Text::from_str(alloc, &value)?,
        })?;
    }
    Ok(parameters)
}
