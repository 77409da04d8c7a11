use std::marker::Model;

/// What a run does with its site.
#[derive(Clone, Copy, Debug, PartialEq, Eq)]
pub(crate) enum Task {
    /// It says that the site could be built, and ends.
    Check,
    /// It serves the site.
    Serve,
}

/// What a command line orders: a task, and the folder of the site.
#[derive(Drop)]
pub(crate) struct Order {
    pub(crate) task: Task,
    pub(crate) folder: String,
}

impl Model for Order {
    ghost use Rattle.std.specs.Prelude.{string_bytes};
    ghost use Rattle.radiusd.specs.OrderSeen.{OrderSeen};

    ghost Value = { OrderSeen };

    ghost view = { λ o. record {
      task = o.task;
      folder = string_bytes o.folder;
    } };
}
