//! The names of the kinds of refusals.
ghost use Rattle.std.specs.Prelude.{◌≡◌, ◌++◌, OnOk, string_bytes, codes};
ghost use Rattle.cluster_session.specs.KindNames.{kind_name, server_name};

use resp_core::{ErrorKind, ServerErrorKind};
use std::alloc::AllocError;

/// Appends the name of a refusal's kind; a named server error's is `Server(..)`.
#[tactic(auto, unfolding(crate::specs::KindNames::kind_name))]
pub(super) fn push_kind(output: &mut String, kind: ErrorKind) -> Result<(), AllocError>
    ensures { OnOk result (string_bytes output.new ≡ string_bytes output.old ++ kind_name kind) }
{
    match kind {
        ErrorKind::Parse => output.push_str("Parse"),
        ErrorKind::AuthenticationFailed => output.push_str("AuthenticationFailed"),
        ErrorKind::UnexpectedReturnType => output.push_str("UnexpectedReturnType"),
        ErrorKind::InvalidClientConfig => output.push_str("InvalidClientConfig"),
        ErrorKind::Io => output.push_str("Io"),
        ErrorKind::Client => output.push_str("Client"),
        ErrorKind::Extension => output.push_str("Extension"),
        ErrorKind::MasterNameNotFoundBySentinel => output.push_str("MasterNameNotFoundBySentinel"),
        ErrorKind::NoValidReplicasFoundBySentinel => output.push_str(
            "NoValidReplicasFoundBySentinel",
        ),
        ErrorKind::EmptySentinelList => output.push_str("EmptySentinelList"),
        ErrorKind::ClusterConnectionNotFound => output.push_str("ClusterConnectionNotFound"),
        ErrorKind::Server(server) => push_server_kind(output, server),
        ErrorKind::Serialize => output.push_str("Serialize"),
        ErrorKind::RESP3NotSupported => output.push_str("RESP3NotSupported"),
        ErrorKind::Memory => output.push_str("Memory"),
    }
}

fn push_server_kind(output: &mut String, kind: ServerErrorKind) -> Result<(), AllocError>
    ensures { OnOk result
        (string_bytes output.new ≡ string_bytes output.old
        ++ (codes "Server(" ++ (server_name kind ++ codes ")"))) }
{
    output.push_str("Server(")?;
    output.push_str(server_name(kind))?;
    output.push_str(")")
}

#[tactic(auto, unfolding(crate::specs::KindNames::server_name))]
fn server_name(kind: ServerErrorKind) -> &'static str
    ensures { result.now ≡ server_name kind }
{
    match kind {
        ServerErrorKind::ResponseError => "ResponseError",
        ServerErrorKind::ExecAbort => "ExecAbort",
        ServerErrorKind::BusyLoading => "BusyLoading",
        ServerErrorKind::NoScript => "NoScript",
        ServerErrorKind::Moved => "Moved",
        ServerErrorKind::Ask => "Ask",
        ServerErrorKind::TryAgain => "TryAgain",
        ServerErrorKind::ClusterDown => "ClusterDown",
        ServerErrorKind::CrossSlot => "CrossSlot",
        ServerErrorKind::MasterDown => "MasterDown",
        ServerErrorKind::ReadOnly => "ReadOnly",
        ServerErrorKind::NotBusy => "NotBusy",
        ServerErrorKind::NoSub => "NoSub",
        ServerErrorKind::NoPerm => "NoPerm",
    }
}
