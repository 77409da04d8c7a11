/// A processing section of a server, as radiusd.conf(5) and unlang(5) name them.
#[derive(Clone, Copy, Debug, PartialEq, Eq)]
pub enum Section {
    Authorize,
    Authenticate,
    Session,
    Preacct,
    Accounting,
    PostAuth,
}
