//! The policies of a configuration: its modules and the sections that call them.

ghost use Rattle.std.specs.Prelude.{◌≡◌};
ghost use Rattle.unlang_tree.specs.Policies.{policies_of};
ghost use Rattle.rad_build.specs.Nodes.{Gives};
ghost use Rattle.rad_build.specs.TreeFault.{of_tree};
ghost use Rattle.rad_site.specs.Built.{policies_in};

use rad_access::Policies;
use rad_build::{BuildFault, Modules};
use rad_conf::Conf;
use rad_dict::Dict;
use std::alloc::Global;
use unlang_code::compile;
use unlang_tree::{Instances, Tree};

/// The sections of a configuration's servers.
fn tree_in(
    alloc: Global,
    dict: &Dict,
    instances: &Instances,
    conf: &Conf,
) -> Result<unlang_tree::Policies, BuildFault>
    ensures { Gives result (of_tree (policies_of conf.now dict.now instances.now)) }
{
    match Tree::of(alloc, conf, dict, instances) {
        Ok(policies) => Ok(policies),
        Err(fault) => Err(BuildFault::from(fault)),
    }
}

/// The policies of a configuration with these modules.
#[tactic(auto, unfolding(crate::specs::Built::policies_in))]
pub(crate) fn policies_in(
    alloc: Global,
    dict: &Dict,
    modules: Modules,
    conf: &Conf,
) -> Result<Policies, BuildFault>
    ensures { Gives result (policies_in dict.now modules conf.now) }
{
    let Modules {
        instances,
        stack,
        ..
    } = modules;
    let sections = tree_in(alloc, dict, &instances, conf)?;
    let table = compile(alloc, &sections)?;
    Ok(Policies { stack, table })
}
