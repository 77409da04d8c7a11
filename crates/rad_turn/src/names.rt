//! The names of the seats that are out, in rising order.
ghost use Rattle.std.specs.Prelude.{◌≡◌, ◌+◌, ◌-◌, ◌^◌, ◌<◌, ◌≤◌, true, length, filter, not, ◌==◌, if◌then◌else◌, OnErr, OnOk};
ghost use Rattle.rad_turn.specs.Names.{is_rising, least_free, with_name, without_name};

use rad_outside::NoMemory;

/// The least positive name that isn't out.
pub(crate) fn free_name(out: &[u32]) -> u32
    requires { length out.now < 2 ^ 32 - 1 }
    ensures { result ≡ least_free out.now }
{
    let mut name = 1;
    for taken in out {
        name = name_after(name, *taken);
    }
    name
}

fn name_after(name: u32, taken: u32) -> u32
    requires { name < 2 ^ 32 - 1 }
    ensures { result ≡ (if taken == name then name + 1 else name) }
{
    if taken == name { name + 1 } else { name }
}

/// Puts the least name that isn't out into its place.
pub(crate) fn add_name(out: &mut Vec<u32>, name: u32) -> Result<(), NoMemory>
    requires rising { is_rising 0 out.old.items ≡ true }
    requires free { name ≡ least_free out.old.items }
    ensures added { OnOk result (out.new.items ≡ with_name name out.old.items) }
    ensures refused { OnErr result (out.new.items ≡ out.old.items) }
{
    out.insert((name - 1) as usize, name)?;
    Ok(())
}

pub(crate) fn remove_name(out: &mut Vec<u32>, name: u32)
    ensures { out.new.items ≡ without_name name out.old.items }
{
    out.retain(|other| *other != name);
}
