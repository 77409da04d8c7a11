//! What the words of a command line order.

ghost use Rattle.std.specs.Prelude.{◌≡◌, map, string_bytes, IfOk};
ghost use Rattle.std.specs.Option.{option_map, option_copied};
ghost use Rattle.radiusd.specs.Words.{folder_of, task_of, order_of, order_in};

use crate::order::{Order, Task};
use rad_args::Arguments;
use rad_outside::NoMemory;
use std::alloc::Global;

/// The line of words that are refused. It names the letters that later versions take, too.
pub(crate) const USAGE: &[u8] = b"usage: radiusd [-C] [-s] [-f] [-d DIR] [-B N]\n";

/// The folder of the site, by the value of `-d`; none where that is no text.
fn folder_of(value: Option<&[u8]>) -> Option<&str>
    ensures { option_copied result ≡ folder_of (option_copied value.entry) }
{
    match value {
        Some(folder) => match str::from_utf8(folder) {
            Ok(folder) => Some(folder),
            Err(_) => None,
        },
        None => Some("/etc/raddb"),
    }
}

/// What is to be done with the site.
fn task_of(arguments: &Arguments) -> Option<Task>
    ensures { result ≡ task_of arguments.now }
{
    if arguments.has(b'C') {
        Some(Task::Check)
    } else if arguments.has(b's') {
        Some(Task::Serve)
    } else {
        None
    }
}

/// What the items of a command line order.
#[tactic(auto, unfolding(crate::specs::Words::order_of))]
fn order_of(alloc: Global, arguments: &Arguments) -> Result<Option<Order>, NoMemory>
    ensures { IfOk result (λ order. order ≡ order_of arguments.now) }
{
    if arguments.plain(0).is_some() {
        return Ok(None);
    }
    let Some(task) = task_of(arguments) else {
        return Ok(None);
    };
    let Some(folder) = folder_of(arguments.value(b'd')) else {
        return Ok(None);
    };
    let folder = folder.to_string(alloc)?;
    Ok(Some(Order { task, folder }))
}

/// What words order, or none where they are refused.
#[tactic(auto, unfolding(crate::specs::Words::order_in))]
pub(crate) fn order_in(alloc: Global, words: &[String]) -> Result<Option<Order>, NoMemory>
    ensures { IfOk result (λ order. order ≡ order_in (map string_bytes words.now)) }
{
    match Arguments::read(alloc, b"Csf", b"d", words)? {
        Some(arguments) => order_of(alloc, &arguments),
        None => Ok(None),
    }
}
