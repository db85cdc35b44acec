//! A cluster as the servers of a proxy.
ghost use Rattle.std.specs.Prelude.{◌≡◌, true, false, [], is_some, MatchOption, IfOk, OnErr};
ghost use Rattle.cluster_client.specs.Whole.{whole};
ghost use Rattle.proxy_core.specs.Batch.{batch_of};
ghost use Rattle.cluster_servers.specs.Asked.{AsksCluster, GoesAlone};
ghost use Rattle.cluster_servers.specs.Seen.{cluster};
ghost use Rattle.cluster_servers.specs.Together.{GoesTogether, entries_of};

use crate::alone::ask_each;
use crate::command::GuestCommand;
use crate::reply::Reply;
use crate::together::{directed_of, some_redirected, tell_all};
use cluster_client::ClusterClient;
use proxy_core::{Outcome, Servers, Waiting};
use resp_core::{RedisError, Value};
use resp_link::{ConnectionLike, PipelinedLink};
use std::alloc::{AllocError, Global};

/// The nodes of a cluster, behind a client, as the servers of a proxy.
#[derive(Drop)]
pub struct ClusterServers<L> {
    /// The client: what `needs_refresh` and `unlinked` tell of it is for the program to mend.
    pub client: ClusterClient<L>,
    /// Whether a command that can not be sent, since no node serves its slot or no open link leads to the
    /// node, waits for the next turn. Where it does not, its guest is told.
    pub patient: bool,
    pub(crate) alone: bool,
}

impl<L: ConnectionLike + Drop> ClusterServers<L> {
    /// The servers that a client leads to. Commands that can not be sent wait.
    pub fn new(client: ClusterClient<L>) -> ClusterServers<L>
        ensures { cluster L.seen result
            ≡ record { world = whole L.seen client; alone = false; patient = true } }
    {
        ClusterServers {
            client,
            patient: true,
            alone: false,
        }
    }
}

impl<L: PipelinedLink + Drop> ClusterServers<L> {
    /// Sends the batch as one pipeline. `None` where it goes command by command.
    fn send_together(
        &mut self,
        alloc: Global,
        batch: &[Waiting<'_, GuestCommand>],
    ) -> Result<Option<Vec<Result<Value, RedisError>>>, AllocError>
        ensures told { IfOk result (λ sent. MatchOption sent
            (GoesAlone (cluster L.seen self.old) (whole L.seen self.new.client) (entries_of (batch_of batch.now)))
            (λ told. GoesTogether (whole L.seen self.old.client) (whole L.seen self.new.client) batch.now told.items)) }
        ensures together { IfOk result (λ sent. is_some sent ≡ true → self.old.alone ≡ false) }
        ensures refused { OnErr result
            (AsksCluster (cluster L.seen self.old) [] [] (cluster L.seen self.new)) }
        ensures alone { self.new.alone ≡ self.old.alone }
        ensures patient { self.new.patient ≡ self.old.patient }
    {
        if self.alone {
            return Ok(None);
        }
        let directed = directed_of(alloc, batch)?;
        match self.client.query_each_directed(alloc, &directed) {
            Ok(told) => Ok(Some(told)),
            Err(error) => {
                if error.is_memory() {
                    Err(AllocError)
                } else {
                    Ok(None)
                }
            }
        }
    }
}

impl<L: PipelinedLink + Drop> Servers<GuestCommand, Reply> for ClusterServers<L> {
    ghost use Rattle.cluster_servers.specs.Asked.{AsksCluster};
    ghost use Rattle.cluster_servers.specs.Seen.{cluster};

    ghost asks = { λ old batch outcomes new. AsksCluster (cluster L.seen old) batch outcomes (cluster L.seen new) };

    fn ask(
        &mut self,
        alloc: Global,
        batch: &[Waiting<'_, GuestCommand>],
    ) -> Result<Vec<Outcome<Reply>>, AllocError> {
        let mut outcomes = Vec::with_capacity(alloc, batch.len())?;
        match self.send_together(alloc, batch)? {
            Some(told) => {
                tell_all(alloc, batch, told, &mut outcomes);
                self.alone = some_redirected(&outcomes);
            }
            None => {
                ask_each(alloc, &mut self.client, self.patient, batch, &mut outcomes);
                self.alone = false;
            }
        }
        Ok(outcomes)
    }
}
