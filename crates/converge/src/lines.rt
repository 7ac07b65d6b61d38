//! The lines of a report.
ghost use Rattle.std.specs.Prelude.{◌≡◌, ◌++◌, ◌∷◌, [], IfOk, OnOk, option_copied, string_bytes};
ghost use Rattle.converge.specs.Reports as spec;

use crate::deeds::{Deed, updates_in};
use crate::log::Log;
use crate::report::Report;
use doc_tree::{NoMemory, Text};
use host_acts::Verdict;
use resource_core::{Action, Resource, RunPlan};
use std::alloc::Global;

/// The report of a run that is done with these acts.
pub(crate) fn whole_report(alloc: Global, log: Log) -> Result<Report, NoMemory>
    ensures { IfOk result (λ report. report.lines ≡ log.lines ++ spec.last_line log.acts.items ∷ []) }
{
    let line = last_line(alloc, &log.acts)?;
    let mut report = log.into_report();
    report.lines.push(line)?;
    Ok(report)
}

/// The line of an act.
pub(crate) fn line_of(alloc: Global, plan: &RunPlan, act: Deed) -> Result<Text, NoMemory>
    ensures { IfOk result (λ line. line ≡ spec.line_of plan.now act) }
{
    match plan.resources().get(act.pair.resource) {
        Some(resource) => line_by(alloc, resource, act),
        None => Text::from_str(alloc, ""),
    }
}

fn line_by(alloc: Global, resource: &Resource, act: Deed) -> Result<Text, NoMemory>
    ensures { IfOk result (λ line. line ≡ spec.line_of_resource resource.now act) }
{
    let title = resource.title(alloc)?;
    let action = resource.kind.actions().get(usize::from(act.pair.action));
    let mut line = String::from_str(alloc, title.as_str())?;
    line.push_str(" ")?;
    line.push_str(word_of(action))?;
    line.push_str(": ")?;
    push_verdict(&mut line, act.verdict)?;
    Ok(Text::of(line))
}

fn word_of(action: Option<&Action>) -> &'static str
    ensures { result.now ≡ spec.action_word (option_copied action.entry) }
{
    match action {
        Some(action) => action.word(),
        None => "",
    }
}

fn push_verdict(line: &mut String, verdict: Verdict) -> Result<(), NoMemory>
    ensures { OnOk result (string_bytes line.new ≡ string_bytes line.old ++ spec.verdict_words verdict) }
{
    match verdict {
        Verdict::UpToDate => line.push_str("up to date")?,
        Verdict::Updated => line.push_str("updated")?,
        Verdict::Failed(cause) => {
            line.push_str("failed: ")?;
            line.push_str(cause.word())?;
        }
    }
    Ok(())
}

/// The last line of a run that is done: how many acts there were, and how many updated.
fn last_line(alloc: Global, acts: &[Deed]) -> Result<Text, NoMemory>
    ensures { IfOk result (λ line. line ≡ spec.last_line acts.now) }
{
    let all = acts.len();
    let updates = updates_in(acts);
    Ok(Text::of(format!(in alloc; "{all} actions, {updates} updated")?))
}
