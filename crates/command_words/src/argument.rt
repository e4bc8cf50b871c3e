ghost use Rattle.std.specs.Prelude.{◌≡◌};
ghost use Rattle.command_words.specs.Arguments.{argument_text};

/// An argument of a command: an option, or the number of `sample`.
#[derive(Clone, Copy)]
pub(crate) enum Argument {
    Id,
    Method,
    Path,
    Workload,
    Port,
    Token,
    ClusterDomain,
    TrustDomain,
    ControlPlaneNamespace,
    ClusterNetworks,
    DefaultPolicy,
    Bind,
    /// The positional number of `sample`.
    Number,
}

impl Argument {
    /// The name, without leading hyphens.
    #[tactic(auto, unfolding(crate::specs::Arguments::argument_text))]
    pub(crate) fn text<'a>(self) -> &'a str
        ensures { result.now ≡ argument_text self }
    {
        match self {
            Argument::Id => "id",
            Argument::Method => "method",
            Argument::Path => "path",
            Argument::Workload => "workload",
            Argument::Port => "port",
            Argument::Token => "token",
            Argument::ClusterDomain => "cluster-domain",
            Argument::TrustDomain => "trust-domain",
            Argument::ControlPlaneNamespace => "control-plane-namespace",
            Argument::ClusterNetworks => "cluster-networks",
            Argument::DefaultPolicy => "default-policy",
            Argument::Bind => "bind",
            Argument::Number => "n",
        }
    }
}
