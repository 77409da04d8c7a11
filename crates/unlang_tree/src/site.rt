//! Where the names of a section's statements are looked up.

use crate::instances::Instances;
use rad_conf::Node;
use rad_dict::Dict;

/// The nodes at the top of the configuration, the dictionary, and the instances.
#[derive(Clone, Copy)]
pub struct SiteRef<'a> {
    pub root: &'a [Node],
    pub dict: &'a Dict,
    pub instances: &'a Instances,
}
