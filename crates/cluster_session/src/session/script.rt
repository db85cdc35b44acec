//! A checked session as data.
ghost use Rattle.std.specs.Prelude.{◌≡◌, ◌≢◌, ◌∷◌, ◌<◌, ◌==◌, [], Some, None, false, IfOk, IfSome, MatchOption, length, unwrap_or};
ghost use Rattle.std.specs.List.{list_any, position};
ghost use Rattle.cluster_routing.specs.Seen.{address};
ghost use Rattle.cluster_client.specs.Shown.{call_in};
ghost use Rattle.cluster_session.specs.Lines.{command, pieces, run};
ghost use Rattle.cluster_session.specs.LinesRead.{access_in, meaning_in, words_in};
ghost use Rattle.cluster_session.specs.Script.{add_call, add_fault, add_inside, add_to, add_unpiped, add_line, add_lines, add_node, add_outside, add_read_only, add_said, before_calls, begin_pipeline, begin_transaction, is_run, nothing_yet, pipeline_call, put_fault, put_node, session_in_text, first_fault, set_budget, set_levels, set_fault};
ghost use Rattle.cluster_session.specs.ScriptRead.{Makes, MakesAll, ReadsSession, draft_in, nodes_in, setup_in};

use crate::session::levels::Levels;
use crate::session::lines::{LineError, is_run, read_line};
use cluster_client::{Call, ClusterPipeline, Cmd, NodeAddress};
use std::alloc::{AllocError, Global};
use std::collections::BTreeMap;

/// What is set up for a node: the bytes that come from it, at most `piece` a read, and the numbers
/// of the read and of the write that fail, counted from 1; 0 where none does.
#[derive(Drop)]
pub(super) struct Node {
    pub piece: usize,
    pub bytes: Vec<u8>,
    pub failing_read: u64,
    pub failing_write: u64,
}

/// What a client does with a node's device.
#[derive(Clone, Copy, Debug, PartialEq, Eq)]
pub(super) enum Access {
    Read,
    Write,
}

impl Node {
    fn new(piece: usize, bytes: Vec<u8>) -> Node
        ensures { setup_in result
            ≡ record { piece = piece; bytes = bytes.items; failing_read = 0; failing_write = 0 } }
    {
        Node {
            piece,
            bytes,
            failing_read: 0,
            failing_write: 0,
        }
    }

    /// Refused where an access of this kind fails already.
    fn set_fault(&mut self, access: Access, number: u64) -> Result<(), LineError>
        ensures { Makes (set_fault (access_in access) number (setup_in self.old)) (setup_in self.new) result }
    {
        match access {
            Access::Read => set_first(&mut self.failing_read, number),
            Access::Write => set_first(&mut self.failing_write, number),
        }
    }
}

/// Refused where a fault is set up already.
fn set_first(failing: &mut u64, number: u64) -> Result<(), LineError>
    ensures { Makes (first_fault failing.old number) failing.new result }
{
    if *failing != 0 {
        return Err(LineError::Bad);
    }
    *failing = number;
    Ok(())
}

/// What a line says.
#[derive(Drop)]
pub(super) enum Line {
    /// A node's address, the most bytes of a read, and the bytes that come from it.
    Node(NodeAddress, usize, Vec<u8>),
    Fault(NodeAddress, Access, u64),
    ReadOnly(Vec<u8>),
    Budget(u16),
    Levels(Levels),
    Call(Call),
    /// It begins a pipeline.
    Pipe,
    /// It begins a pipeline that tells of each of its commands.
    Each,
    /// It begins a transaction.
    Multi,
    /// A command of a pipeline, or of a transaction.
    Command { command: Cmd, ignored: bool },
    /// It ends a pipeline, or a transaction.
    Run,
}

/// Why a text is no session.
#[derive(Clone, Copy, Debug, PartialEq, Eq)]
pub(super) enum ScriptError {
    /// The number, from 1, of the first bad line.
    BadLine(u64),
    /// Memory was refused.
    Memory,
}

impl From<AllocError> for ScriptError {
    ghost use Rattle.std.specs.Prelude.{◌≡◌};
    ghost use Rattle.cluster_session.specs.declared.session.script.ScriptError.TheVariants.{Memory};

    ghost from_gives = { λ _ e. e ≡ Memory };

    fn from(_e: AllocError) -> ScriptError {
        ScriptError::Memory
    }
}

/// A session: what is set up for each node, the names of commands that only read, a budget of
/// redirects and a limit of levels where lines set them, and the calls in order.
#[derive(Drop)]
pub(super) struct Script {
    pub nodes: BTreeMap<NodeAddress, Node>,
    pub read_only: Vec<Vec<u8>>,
    pub budget: Option<u16>,
    pub levels: Option<Levels>,
    pub calls: Vec<Call>,
    // The pipeline that no line has ended yet.
    pub pipeline: Option<ClusterPipeline>,
    // Whether that pipeline tells of each of its commands.
    pub tells_each: bool,
    // The commands of a transaction that no line has ended yet.
    pub transaction: Option<Vec<Cmd>>,
}

impl Script {
    fn empty(alloc: Global) -> Script
        ensures { draft_in result ≡ nothing_yet }
    {
        Script {
            nodes: BTreeMap::new(alloc),
            read_only: Vec::new(alloc),
            budget: None,
            levels: None,
            calls: Vec::new(alloc),
            pipeline: None,
            tells_each: false,
            transaction: None,
        }
    }

    /// The session that a text spells. Lines end in LF or at the text's end.
    pub(super) fn read(alloc: Global, text: &[u8]) -> Result<Script, ScriptError>
        ensures { ReadsSession (session_in_text text.now) result }
    {
        let lines = lines_of(alloc, text)?;
        let mut script = Script::empty(alloc);
        script.add_lines(alloc, lines.as_slice())?;
        Ok(script)
    }

    /// The lines in order, up to the first bad one.
    fn add_lines(&mut self, alloc: Global, lines: &[&[u8]]) -> Result<(), ScriptError>
        ensures { MakesAll (add_lines 1 (words_in lines.now) (draft_in self.old)) (draft_in self.new) result }
    {
        'lines: for (index, line) in lines.iter().enumerate() {
            match self.add_line(alloc, line, &lines[index + 1..]) {
                Ok(()) => {}
                Err(LineError::Bad) => return Err(ScriptError::BadLine(index as u64 + 1)),
                Err(LineError::Memory) => return Err(ScriptError::Memory),
            }
        }
        Ok(())
    }

    /// A line, of which those behind it are known too.
    fn add_line(&mut self, alloc: Global, line: &[u8], later: &[&[u8]]) -> Result<(), LineError>
        ensures { Makes (add_line (words_in later.now) line.now (draft_in self.old))
            (draft_in self.new) result }
    {
        match read_line(alloc, line)? {
            None => Ok(()),
            Some(line) => self.add_said(alloc, line, later),
        }
    }

    /// What a line says, inside a pipeline or a transaction, or outside both.
    #[tactic(auto, using(crate::proofs::Scripts::said_inside, crate::proofs::Scripts::said_outside))]
    fn add_said(&mut self, alloc: Global, line: Line, later: &[&[u8]]) -> Result<(), LineError>
        ensures { Makes (add_said (draft_in self.old).pipeline (words_in later.now) (meaning_in line)
            (draft_in self.old)) (draft_in self.new) result }
    {
        if self.pipeline.is_some() {
            self.add_inside(line)
        } else {
            self.add_unpiped(alloc, line, later)
        }
    }

    #[tactic(auto, using(crate::proofs::Scripts::said_to, crate::proofs::Scripts::said_unpiped))]
    fn add_unpiped(&mut self, alloc: Global, line: Line, later: &[&[u8]]) -> Result<(), LineError>
        ensures { Makes (add_unpiped (draft_in self.old).transaction (words_in later.now) (meaning_in line)
            (draft_in self.old)) (draft_in self.new) result }
    {
        if self.transaction.is_some() {
            self.add_to_transaction(line)
        } else {
            self.add_outside(alloc, line, later)
        }
    }

    /// A line of an open pipeline.
    fn add_inside(&mut self, line: Line) -> Result<(), LineError>
        requires { self.old.pipeline ≢ None }
        ensures { Makes (add_inside (unwrap_or self.old.pipeline []) (meaning_in line) (draft_in self.old))
            (draft_in self.new) result }
    {
        match line {
            Line::Command { command, ignored } => self.add_command(command, ignored),
            Line::Run => self.end_pipeline(),
            _ => Err(LineError::Bad),
        }
    }

    fn add_outside(&mut self, alloc: Global, line: Line, later: &[&[u8]]) -> Result<(), LineError>
        ensures { Makes (add_outside (words_in later.now) (meaning_in line) (draft_in self.old))
            (draft_in self.new) result }
    {
        match line {
            Line::Node(address, piece, bytes) => self.add_node(address, Node::new(piece, bytes)),
            Line::Fault(address, access, number) => self.add_fault(&address, access, number),
            Line::ReadOnly(name) => self.add_read_only(name),
            Line::Budget(budget) => self.set_budget(budget),
            Line::Levels(levels) => self.set_levels(levels),
            Line::Call(call) => self.add_call(call),
            Line::Pipe => self.begin_pipeline(alloc, false, later),
            Line::Each => self.begin_pipeline(alloc, true, later),
            Line::Multi => self.begin_transaction(alloc, later),
            Line::Command { .. } | Line::Run => Err(LineError::Bad),
        }
    }

    /// Refused behind a call, and where the address has a node already.
    fn add_node(&mut self, at: NodeAddress, node: Node) -> Result<(), LineError>
        ensures { Makes (before_calls (draft_in self.old)
            (add_node (address at) (setup_in node) (draft_in self.old))) (draft_in self.new) result }
    {
        if !self.calls.is_empty() {
            return Err(LineError::Bad);
        }
        put_node(&mut self.nodes, at, node)
    }

    /// Refused behind a call, and where no line above sets up the node.
    fn add_fault(&mut self, at: &NodeAddress, access: Access, number: u64) -> Result<(), LineError>
        ensures { Makes (before_calls (draft_in self.old)
            (add_fault (address at.now) (access_in access) number (draft_in self.old)))
            (draft_in self.new) result }
    {
        if !self.calls.is_empty() {
            return Err(LineError::Bad);
        }
        put_fault(&mut self.nodes, at, access, number)
    }

    /// Refused behind a call.
    fn add_read_only(&mut self, name: Vec<u8>) -> Result<(), LineError>
        ensures { Makes (before_calls (draft_in self.old)
            (Some (add_read_only name.items (draft_in self.old)))) (draft_in self.new) result }
    {
        if !self.calls.is_empty() {
            return Err(LineError::Bad);
        }
        self.read_only.push(name)?;
        Ok(())
    }

    /// Refused behind a call, and where a line set it already.
    fn set_budget(&mut self, budget: u16) -> Result<(), LineError>
        ensures { Makes (before_calls (draft_in self.old) (set_budget budget (draft_in self.old)))
            (draft_in self.new) result }
    {
        if !self.calls.is_empty() || self.budget.is_some() {
            return Err(LineError::Bad);
        }
        self.budget = Some(budget);
        Ok(())
    }

    /// Refused behind a call, and where a line set it already.
    fn set_levels(&mut self, levels: Levels) -> Result<(), LineError>
        ensures { Makes (before_calls (draft_in self.old) (set_levels levels.limit (draft_in self.old)))
            (draft_in self.new) result }
    {
        if !self.calls.is_empty() || self.levels.is_some() {
            return Err(LineError::Bad);
        }
        self.levels = Some(levels);
        Ok(())
    }

    fn add_call(&mut self, call: Call) -> Result<(), LineError>
        ensures { Makes (Some (add_call (call_in call) (draft_in self.old))) (draft_in self.new) result }
    {
        self.calls.push(call)?;
        Ok(())
    }

    /// Refused where no line behind it ends the pipeline.
    #[tactic(auto, using(crate::proofs::Scripts::any_words))]
    fn begin_pipeline(
        &mut self,
        alloc: Global,
        tells_each: bool,
        later: &[&[u8]],
    ) -> Result<(), LineError>
        ensures { Makes (begin_pipeline tells_each (words_in later.now) (draft_in self.old))
            (draft_in self.new) result }
    {
        if !is_ended(later) {
            return Err(LineError::Bad);
        }
        self.pipeline = Some(ClusterPipeline::new(alloc));
        self.tells_each = tells_each;
        Ok(())
    }

    #[tactic(auto, using(crate::proofs::Scripts::last_is_ignored))]
    fn add_command(&mut self, cmd: Cmd, ignored: bool) -> Result<(), LineError>
        requires { self.old.pipeline ≢ None }
        ensures { Makes (add_inside (unwrap_or self.old.pipeline [])
            (command (record { command = cmd; ignored = ignored })) (draft_in self.old))
            (draft_in self.new) result }
    {
        let Some(pipeline) = &mut self.pipeline else {
            return Err(LineError::Bad);
        };
        pipeline.add_command(cmd)?;
        if ignored {
            pipeline.ignore();
        }
        Ok(())
    }

    fn end_pipeline(&mut self) -> Result<(), LineError>
        requires { self.old.pipeline ≢ None }
        ensures { Makes (add_inside (unwrap_or self.old.pipeline []) run (draft_in self.old))
            (draft_in self.new) result }
    {
        match self.pipeline.take() {
            None => Err(LineError::Bad),
            Some(pipeline) => self.add_call(pipeline_call(self.tells_each, pipeline)),
        }
    }

    /// A line of an open transaction.
    fn add_to_transaction(&mut self, line: Line) -> Result<(), LineError>
        requires { self.old.transaction ≢ None }
        ensures { Makes (add_to (unwrap_or (draft_in self.old).transaction []) (meaning_in line)
            (draft_in self.old)) (draft_in self.new) result }
    {
        match line {
            Line::Command {
                command,
                ignored: false,
            } => self.add_done_as_one(command),
            Line::Run => self.end_transaction(),
            _ => Err(LineError::Bad),
        }
    }

    /// Refused where no line behind it ends the transaction.
    #[tactic(auto, using(crate::proofs::Scripts::any_words))]
    fn begin_transaction(&mut self, alloc: Global, later: &[&[u8]]) -> Result<(), LineError>
        ensures { Makes (begin_transaction (words_in later.now) (draft_in self.old))
            (draft_in self.new) result }
    {
        if !is_ended(later) {
            return Err(LineError::Bad);
        }
        self.transaction = Some(Vec::new(alloc));
        Ok(())
    }

    fn add_done_as_one(&mut self, cmd: Cmd) -> Result<(), LineError>
        requires { self.old.transaction ≢ None }
        ensures { Makes (add_to (unwrap_or (draft_in self.old).transaction [])
            (command (record { command = cmd; ignored = false })) (draft_in self.old))
            (draft_in self.new) result }
    {
        let Some(commands) = &mut self.transaction else {
            return Err(LineError::Bad);
        };
        commands.push(cmd)?;
        Ok(())
    }

    fn end_transaction(&mut self) -> Result<(), LineError>
        requires { self.old.transaction ≢ None }
        ensures { Makes (add_to (unwrap_or (draft_in self.old).transaction []) run (draft_in self.old))
            (draft_in self.new) result }
    {
        match self.transaction.take() {
            None => Err(LineError::Bad),
            Some(commands) => self.add_call(Call::Transaction(commands)),
        }
    }
}

/// The call of a pipeline.
fn pipeline_call(tells_each: bool, pipeline: ClusterPipeline) -> Call
    ensures { call_in result ≡ pipeline_call tells_each pipeline }
{
    if tells_each {
        Call::Each(pipeline)
    } else {
        Call::Pipeline(pipeline)
    }
}

/// Refused where the address has a node already.
fn put_node(
    nodes: &mut BTreeMap<NodeAddress, Node>,
    at: NodeAddress,
    node: Node,
) -> Result<(), LineError>
    ensures { Makes (put_node (address at) (setup_in node) (nodes_in nodes.old)) (nodes_in nodes.new) result }
{
    if nodes.contains_key(&at) {
        return Err(LineError::Bad);
    }
    nodes.insert(at, node)?;
    Ok(())
}

/// Refused where the address has no node.
fn put_fault(
    nodes: &mut BTreeMap<NodeAddress, Node>,
    at: &NodeAddress,
    access: Access,
    number: u64,
) -> Result<(), LineError>
    ensures { Makes (put_fault (address at.now) (access_in access) number (nodes_in nodes.old))
        (nodes_in nodes.new) result }
{
    match nodes.get_mut(at) {
        None => Err(LineError::Bad),
        Some(node) => node.set_fault(access, number),
    }
}

/// Whether one of these lines ends a pipeline, or a transaction.
fn is_ended(later: &[&[u8]]) -> bool
    ensures { result ≡ list_any (λ line. is_run line.now) later.now }
{
    later.iter().any(|line| is_run(line))
}

/// The lines of a text: what stands between the bytes LF.
fn lines_of(alloc: Global, text: &[u8]) -> Result<Vec<&[u8]>, AllocError>
    ensures { IfOk result (λ v. words_in v.items ≡ pieces 10 text.now) }
{
    let mut lines = Vec::new(alloc);
    let mut rest = text;
    'lines: while let Some((line, later)) = cut_line(rest) {
        lines.push(line)?;
        rest = later;
    }
    lines.push(rest)?;
    Ok(lines)
}

/// The first line, and the text behind its LF.
#[tactic(auto, using(crate::proofs::Pieces::piece_without))]
fn cut_line(text: &[u8]) -> Option<(&[u8], &[u8])>
    ensures pieces { MatchOption result (pieces 10 text.now ≡ text.now ∷ [])
        (λ parts. pieces 10 text.now ≡ parts.0.now ∷ pieces 10 parts.1.now) }
    ensures shorter { IfSome result (λ parts. length parts.1.now < length text.now) }
{
    match end_of_line(text) {
        Some(end) => Some((&text[..end], &text[end + 1..])),
        None => None,
    }
}

fn end_of_line(text: &[u8]) -> Option<usize>
    ensures end { result ≡ position (λ byte. byte == 10) text.now }
    ensures within { IfSome result (λ end. end < length text.now) }
{
    text.iter().position(|byte| *byte == b'\n')
}
