//! The faults on purpose that the command line asks for.

use clap::ArgMatches;
use drm_commands::Fault;
use drm_traffic::{PROGRAM, Plan, RuleKind, read_rule};
use log::{Log, error};
use std::alloc::Global;
use std::sync::Wait;

/// Makes the rules of an option. One that can't be used is logged.
fn add_all<R: Log + Wait>(
    rt: &R,
    plan: &Plan,
    kind: RuleKind,
    option: &str,
    texts: &[&str],
) -> Result<(), Fault> {
    for text in texts {
        let added = match read_rule(kind, text.as_bytes()) {
            Ok(rule) => plan.add(rt, rule),
            Err(fault) => Err(fault),
        };
        if let Err(fault) = added {
            error!(rt; target: PROGRAM, "--{option} {text}: {fault}");
            return Err(Fault::CommandLine);
        }
    }
    Ok(())
}

/// Returns the plan of the rules of a command line. Returns `None` without a rule, where no control can make one later.
pub(crate) fn plan_of<R: Log + Wait>(
    rt: &R,
    alloc: Global,
    matches: &ArgMatches<'_>,
    control: Option<&str>,
) -> Result<Option<Plan>, Fault> {
    let fails = matches.get_strs("fail").unwrap_or(&[]);
    let stalls = matches.get_strs("stall").unwrap_or(&[]);
    let breaks = matches.get_strs("break").unwrap_or(&[]);
    if fails.is_empty() && stalls.is_empty() && breaks.is_empty() && control.is_none() {
        return Ok(None);
    }
    let Ok(plan) = Plan::new(alloc) else {
        return Err(Fault::Memory);
    };
    add_all(rt, &plan, RuleKind::Fail, "fail", fails)?;
    add_all(rt, &plan, RuleKind::Stall, "stall", stalls)?;
    add_all(rt, &plan, RuleKind::Break, "break", breaks)?;
    Ok(Some(plan))
}
