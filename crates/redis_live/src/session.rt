//! Commands in, replies out.
use crate::print::{Style, errors, refusal, reply};
use crate::words::split;
use anyhow::Result;
use cluster_client::{
    ClusterClient, ClusterPipeline, Cmd, ConnectionLike, Directed, Direction, RedisError, Value,
    cluster_pipe,
};
use node_files::{Learning, Link, Peer, is_doubtful, listed, relink};
use std::alloc::{AllocError, Global};
use std::io::{BufRead, BufReader, Write};
use std::rt::{Clock, Env, Files};
use std::time::Instant;
use std::{env, io};

// How many redirects a request follows.
const BUDGET: u16 = 5;

/// A client, and what goes on between its calls.
#[derive(Drop)]
struct Session<L> {
    client: ClusterClient<L>,
    /// The nodes of the folder; the first is asked first for the slot map.
    peers: Vec<Peer>,
    /// When it asked for the slot map.
    learning: Learning,
    /// The commands since the line `pipeline`.
    pipeline: Option<ClusterPipeline>,
    style: Style,
    output: Vec<u8>,
}

impl<L: ConnectionLike + Drop> Session<L> {
    /// Asks one node after another for the slot map, until one answers. That one is asked first from
    /// then on.
    fn refresh(&mut self, alloc: Global) -> Result<()> {
        let mut answered = None;
        for (place, peer) in self.peers.iter().enumerate() {
            let Err(error) = self.client.refresh(alloc, &peer.node) else {
                answered = Some(place);
                break;
            };
            write!(self.output, "(map from {}) ", peer.node)?;
            refusal(&mut self.output, self.style, &error, None)?;
        }
        if let Some(place) = answered
            && place < self.peers.len()
        {
            self.peers.swap(0, place);
        }
        Ok(())
    }

    /// Tells the nodes of the slot map to which no link leads.
    fn tell_unlinked(&mut self, alloc: Global) -> Result<()> {
        for node in self.client.unlinked(alloc)? {
            writeln!(self.output, "(no link to {node})")?;
        }
        Ok(())
    }

    /// Does what a line asks for.
    fn take_line(&mut self, alloc: Global, line: &[u8]) -> Result<()> {
        let Some(words) = split(alloc, line)? else {
            writeln!(self.output, "Invalid argument(s)")?;
            return Ok(());
        };
        match words.as_slice() {
            [] => Ok(()),
            [word] if word.as_slice() == b"pipeline".as_slice() => {
                self.pipeline = Some(cluster_pipe(alloc));
                Ok(())
            }
            [word] if word.as_slice() == b"end".as_slice() => self.end_pipeline(alloc),
            _ => self.take_command(alloc, command_of(alloc, &words)?),
        }
    }

    /// Keeps a command for its pipeline, or sends it.
    fn take_command(&mut self, alloc: Global, command: Cmd) -> Result<()> {
        match &mut self.pipeline {
            Some(pipeline) => {
                pipeline.add_command(command)?;
                Ok(())
            }
            None => {
                let answer = ask(alloc, &mut self.client, &command);
                self.tell(alloc, answer)
            }
        }
    }

    /// Sends the pipeline's commands.
    fn end_pipeline(&mut self, alloc: Global) -> Result<()> {
        let Some(pipeline) = self.pipeline.take() else {
            writeln!(self.output, "Invalid argument(s)")?;
            return Ok(());
        };
        let answer = pipeline.query(alloc, &mut self.client);
        match answer {
            Ok(value) => reply(alloc, &mut self.output, self.style, &value),
            Err(error) => self.tell_errors(alloc, error),
        }
    }

    /// Tells why a pipeline is refused: by the errors of servers, each of them.
    fn tell_errors(&mut self, alloc: Global, error: RedisError) -> Result<()> {
        self.hear(&error);
        if error.code().is_none() {
            return self.tell_refusal(&error);
        }
        let found = error.into_server_errors(alloc)?;
        errors(&mut self.output, self.style, &found)
    }

    fn tell(&mut self, alloc: Global, answer: Result<Value, RedisError>) -> Result<()> {
        match answer {
            Ok(value) => reply(alloc, &mut self.output, self.style, &value),
            Err(error) => self.tell_refusal(&error),
        }
    }

    fn tell_refusal(&mut self, error: &RedisError) -> Result<()> {
        self.hear(error);
        let node = self.client.asked().last().map(|asked| &asked.node);
        refusal(&mut self.output, self.style, error, node)
    }

    /// Takes note of an error that a new slot map may mend.
    fn hear(&mut self, error: &RedisError) {
        if is_doubtful(error) {
            self.learning.doubt();
        }
    }

    fn flush<R: Print>(&mut self, rt: &R) -> io::Result<()> {
        io::writer(rt).write_all(&self.output)?;
        self.output.clear();
        Ok(())
    }
}

fn command_of(alloc: Global, words: &[Vec<u8>]) -> Result<Cmd, AllocError> {
    let mut command = Cmd::new(alloc);
    for word in words {
        command.arg(word.as_slice())?;
    }
    Ok(command)
}

/// The answer to one command, of all nodes or all primaries where it goes to these.
fn ask<L: ConnectionLike + Drop>(
    alloc: Global,
    client: &mut ClusterClient<L>,
    command: &Cmd,
) -> Result<Value, RedisError> {
    let direction = Direction::for_routable(alloc, command, &[])?;
    let directed = Directed {
        command,
        direction: &direction,
    };
    match &direction {
        Direction::AllNodes(_) | Direction::AllPrimaries(_) => {
            client.fan_out_directed(alloc, &directed)
        }
        _ => client.query_directed(alloc, &directed, 0, None),
    }
}

/// Sees to it that links are open and the slot map is known. A map that is in doubt is learnt anew.
fn restore<R: Files + Clock + AllocGlobal>(
    rt: &R,
    folder: &str,
    session: &mut Session<Link<R::File>>,
) -> Result<()> {
    let alloc = rt.alloc();
    let has_opened = relink(rt, folder, &mut session.peers, &mut session.client, None)?;
    let wants_map = session.client.needs_refresh();
    let now = Instant::now(rt)?;
    if has_opened || wants_map || session.learning.is_due(now) {
        session.learning.note(now);
        session.refresh(alloc)?;
        session.tell_unlinked(alloc)?;
    }
    Ok(())
}

/// Takes commands from the input, one a line, until it ends.
pub(crate) fn serve<R: Files + Clock + Env + Input + Print + AllocGlobal>(rt: &R) -> Result<()> {
    let alloc = rt.alloc();
    let mut args = env::args(rt)?;
    let _program = args.next();
    let Some(folder) = args.next() else {
        println!(rt; "live FOLDER [--raw] < COMMANDS")?;
        return Ok(());
    };
    let style = match args.next() {
        Some(_) => Style::Raw,
        None => Style::Typed,
    };
    let folder = folder.as_str();
    let mut session = Session {
        client: ClusterClient::new(alloc, Vec::new(alloc), Vec::new(alloc), BUDGET)?,
        peers: listed(rt, folder)?,
        learning: Learning::new(),
        pipeline: None,
        style,
        output: Vec::new(alloc),
    };
    restore(rt, folder, &mut session)?;
    for line in BufReader::new(alloc, rt.reader())?.split(alloc, b'\n') {
        let line = line?;
        session.take_line(alloc, &line)?;
        session.flush(rt)?;
        restore(rt, folder, &mut session)?;
    }
    session.flush(rt)?;
    Ok(())
}
