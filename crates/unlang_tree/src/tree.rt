//! The policies of a whole configuration.

ghost use Rattle.rad_text.specs.Answers.{IsAnswer};
ghost use Rattle.unlang_tree.specs.Policies.{policies_of, says};

use crate::fault::TreeFault;
use crate::instances::Instances;
use crate::policies::Policies;
use crate::servers::servers_of;
use crate::site::SiteRef;
use rad_conf::Conf;
use rad_dict::Dict;
use std::alloc::Global;

/// The source tree of a configuration's policies.
#[derive(Clone, Copy, Debug)]
pub struct Tree;

impl Tree {
    /// The policies of all servers of a configuration, with the instances that its calls name, or its first fault in
    /// reading order.
    pub fn of(
        alloc: Global,
        conf: &Conf,
        dict: &Dict,
        instances: &Instances,
    ) -> Result<Policies, TreeFault>
        ensures { IsAnswer says (policies_of conf.now dict.now instances.now) result }
    {
        let site = SiteRef {
            root: conf.root().as_slice(),
            dict,
            instances,
        };
        let servers = servers_of(alloc, &site)?;
        Ok(Policies::of(alloc, servers)?)
    }
}
