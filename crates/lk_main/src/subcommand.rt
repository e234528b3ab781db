//! The subcommands and their names.

ghost use Rattle.std.specs.Prelude.{◌≡◌, Some, IfSome};
ghost use Rattle.lk_main.specs.Subcommands.{name_of};

/// A subcommand of `locks`.
#[derive(Clone, Copy)]
pub enum Subcommand {
    Sim,
    Fuzz,
    Node,
    Init,
    Ask,
    Demo,
    Dump,
    Inspect,
    Scrub,
    Seed,
    ClientKey,
    Status,
}

impl Subcommand {
    /// Returns the subcommand of that name, if there is one.
    pub fn of(name: &str) -> Option<Subcommand>
        ensures some { IfSome result (λ s. name.now ≡ name_of s) }
        ensures named { (s : Subcommand) → name.now ≡ name_of s → result ≡ Some s }
    {
        match name {
            "sim" => Some(Subcommand::Sim),
            "fuzz" => Some(Subcommand::Fuzz),
            "node" => Some(Subcommand::Node),
            "init" => Some(Subcommand::Init),
            "ask" => Some(Subcommand::Ask),
            "demo" => Some(Subcommand::Demo),
            "dump" => Some(Subcommand::Dump),
            "inspect" => Some(Subcommand::Inspect),
            "scrub" => Some(Subcommand::Scrub),
            "seed" => Some(Subcommand::Seed),
            "client-key" => Some(Subcommand::ClientKey),
            "status" => Some(Subcommand::Status),
            _ => None,
        }
    }
}
