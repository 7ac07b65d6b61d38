//! Laws: what runs come to, and what they leave.
ghost use Rattle.converge.specs.Determined.{RunsAreDetermined};
ghost use Rattle.converge.specs.Settled as spec;

/// A run is determined by the plan and the host: two that come from one host have the same acts, the same report, and
/// leave the same host.
pub fn runs_are_determined()
    ensures { RunsAreDetermined }
{}

/// A plan of which any two stated wants agree by a table that asks for no host is one whose wants agree.
pub fn plans_that_agree_by_table_agree()
    ensures { spec.PlansByTableAgree }
{}

/// Where the wants of a plan agree and no act of a run failed, what each own action wants holds afterwards.
pub fn well_runs_settle()
    ensures { spec.WellSettles }
{}

/// Where what each own action wants holds, each act of a run is up to date, and the host stays as it is.
pub fn settled_hosts_stay()
    ensures { spec.SettledStays }
{}
