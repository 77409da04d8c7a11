use rad_outside::Octets;

/// The settings of a whole site.
#[derive(Debug, Drop)]
pub struct Settings {
    /// How long a reply is kept for repeats, in seconds: 0 to 3,600.
    pub cleanup_delay: u32,
    /// How many requests the table holds at most: 1 to 65,536.
    pub max_requests: u32,
    /// How many workers serve each listener: 1 to 64.
    pub start_servers: u32,
    /// The path of the session log.
    pub session_log: Octets,
}
