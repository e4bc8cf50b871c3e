// The options of the commands, and the values that they accept.
use crate::command::Command;

/// An option, or the number of the command `sample`.
#[derive(Clone, Copy, PartialEq, Eq)]
pub(crate) enum Argument {
    ClusterDomain,
    TrustDomain,
    ControlPlaneNamespace,
    ClusterNetworks,
    DefaultPolicy,
    Id,
    Method,
    Path,
    Workload,
    Port,
    Token,
    Bind,
    Number,
}

/// All arguments, in the order of the usage.
pub(crate) static ARGUMENTS: [Argument; 13] = [
    Argument::ClusterDomain,
    Argument::TrustDomain,
    Argument::ControlPlaneNamespace,
    Argument::ClusterNetworks,
    Argument::DefaultPolicy,
    Argument::Id,
    Argument::Method,
    Argument::Path,
    Argument::Workload,
    Argument::Port,
    Argument::Token,
    Argument::Bind,
    Argument::Number,
];

pub(crate) static METHODS: [&str; 5] = ["Get", "GetProfile", "WatchPort", "WatchPort2", "Watch"];

pub(crate) static POLICIES: [&str; 6] = [
    "all-unauthenticated",
    "all-authenticated",
    "cluster-unauthenticated",
    "cluster-authenticated",
    "deny",
    "audit",
];

// Whether a method is about a port of a Pod.
fn is_of_port(method: &str) -> bool {
    method == "WatchPort" || method == "WatchPort2"
}

impl Argument {
    /// Returns the option with a name.
    pub(crate) fn named(name: &str) -> Option<Argument> {
        ARGUMENTS
            .iter()
            .copied()
            .find(|option| option.name() == name)
    }

    pub(crate) fn name(self) -> &'static str {
        match self {
            Argument::ClusterDomain => "--cluster-domain",
            Argument::TrustDomain => "--trust-domain",
            Argument::ControlPlaneNamespace => "--control-plane-namespace",
            Argument::ClusterNetworks => "--cluster-networks",
            Argument::DefaultPolicy => "--default-policy",
            Argument::Id => "--id",
            Argument::Method => "--method",
            Argument::Path => "--path",
            Argument::Workload => "--workload",
            Argument::Port => "--port",
            Argument::Token => "--token",
            Argument::Bind => "--bind",
            Argument::Number => "NUMBER",
        }
    }

    /// Describes the accepted values.
    pub(crate) fn value(self) -> &'static str {
        match self {
            Argument::ClusterDomain | Argument::TrustDomain | Argument::ControlPlaneNamespace => {
                "1 to 253 bytes of a-z, 0-9, - and ."
            }
            Argument::ClusterNetworks => {
                "networks with commas between them, as 10.0.0.0/8,fd00::/8"
            }
            Argument::DefaultPolicy => {
                "all-unauthenticated, all-authenticated, cluster-unauthenticated, cluster-authenticated, deny or audit"
            }
            Argument::Id => "a number from 0 to 4294967295",
            Argument::Method => "Get, GetProfile, WatchPort, WatchPort2 or Watch",
            Argument::Path => {
                "NAME.NAMESPACE.svc.DOMAIN[:PORT] with the cluster domain, or for GetProfile and Watch also IP[:PORT]"
            }
            Argument::Workload => "NAMESPACE:POD",
            Argument::Port => "a number from 1 to 65535",
            Argument::Token => "any string",
            Argument::Bind => {
                "an IP address and a port from 1 to 65535, as 127.0.0.1:8086 or [::1]:8086"
            }
            Argument::Number => "from 0 to 1000",
        }
    }

    /// Returns the accepted values, if they are words that can be listed.
    pub(crate) fn choices(self) -> &'static [&'static str] {
        match self {
            Argument::Method => &METHODS,
            Argument::DefaultPolicy => &POLICIES,
            _ => &[],
        }
    }

    pub(crate) fn is_of(self, command: Command) -> bool {
        match self {
            Argument::Id | Argument::Method => {
                command == Command::Diagnose || command == Command::Fold
            }
            Argument::Path | Argument::Workload | Argument::Port | Argument::Token => {
                command == Command::Diagnose
            }
            Argument::Bind => command == Command::Serve,
            Argument::Number => command == Command::Sample,
            _ => command != Command::Fold,
        }
    }

    /// Returns the names of the commands that have the option.
    pub(crate) fn commands(self) -> &'static str {
        match self {
            Argument::Id | Argument::Method => "diagnose and fold",
            Argument::Path | Argument::Workload | Argument::Port | Argument::Token => "diagnose",
            Argument::Bind => "serve",
            Argument::Number => "sample",
            _ => "replay, diagnose, sample and serve",
        }
    }

    /// Whether the argument is read for some methods only.
    pub(crate) fn is_of_method(self) -> bool {
        match self {
            Argument::Path | Argument::Workload | Argument::Port => true,
            _ => false,
        }
    }

    /// Whether the command needs the argument for this method.
    pub(crate) fn is_needed(self, command: Command, method: &str) -> bool {
        match self {
            Argument::Id | Argument::Method => self.is_of(command),
            Argument::Path => command == Command::Diagnose && !is_of_port(method),
            Argument::Workload | Argument::Port => {
                command == Command::Diagnose && is_of_port(method)
            }
            Argument::Bind => command == Command::Serve,
            Argument::Number => command == Command::Sample,
            _ => false,
        }
    }

    /// Returns a command line that is accepted if the argument is added with an accepted value.
    /// None if the values depend on other options, or if every value is accepted.
    pub(crate) fn probe(self) -> Option<&'static str> {
        match self {
            Argument::Id => Some("fold --method=Get"),
            Argument::Method => Some("fold --id=0"),
            Argument::Workload => Some("diagnose --id=0 --method=WatchPort --port=1"),
            Argument::Port => Some("diagnose --id=0 --method=WatchPort --workload=a:b"),
            Argument::Bind => Some("serve"),
            Argument::Number => Some("sample"),
            Argument::Path | Argument::Token => None,
            _ => Some("replay"),
        }
    }
}
