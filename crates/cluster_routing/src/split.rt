//! The parts of a split command, and the command of each.

ghost use Rattle.std.specs.Prelude.{◌≡◌, ◌++◌, map, flat_map, option_map, IfOk, Some};
ghost use Rattle.resp_args.specs.Command.{new_command};
ghost use Rattle.cluster_routing.specs.Info.{lent, lent_texts, shown_parts, shown_routed, shown_split, shown_splitting, texts};
ghost use Rattle.cluster_routing.specs.Split.{IsOwnSplitting, lent_splitting, text_list, parts_by_role, parts_by_place, shared_in, shared_text, shared_with, parts_with_routes, splitting_of, sub_at, sub_of, text_at, with_texts};

use crate::direction::Direction;
use crate::policy::{MultiSlotArgPattern, ResponsePolicy};
use crate::routable::Routable;
use crate::route::{Route, SlotAddr};
use crate::table::{Rule, is_family, rule_for};
use crate::tuples::{len_in_tuples, routes_of};
use resp_args::Cmd;
use std::alloc::{AllocError, Global};

/// The parts of a split command.
#[derive(Debug, PartialEq, Drop)]
pub struct SplitParts {
    /// The route of each part, in the order in which their slots first appear, with the places of
    /// its arguments: 0 is the first argument behind the word, places ascend, and the last argument
    /// is not among them where all parts share it.
    pub routes: Vec<(Route, Vec<usize>)>,
    /// How its arguments fall into tuples.
    pub pattern: MultiSlotArgPattern,
    /// How the replies of the parts become one.
    pub policy: ResponsePolicy,
}

impl SplitParts {
    /// The parts of a split command, also where all of its keys have one slot; `None` where its word
    /// is no split word, an argument is a gap, its last tuple is broken, or it has none.
    ///
    /// `read_only` are the names of the commands that may be served by a replica: the routes of such
    /// a word are `ReplicaOptional`, every other `Master`. Names are compared without the case of
    /// ASCII letters. (Documentation of the crate `redis`, `cluster_routing`.)
    ///
    /// # Errors
    /// `AllocError` where memory is refused.
    pub fn for_routable<R: Routable>(
        alloc: Global,
        r: &R,
        read_only: &[Vec<u8>],
    ) -> Result<Option<SplitParts>, AllocError>
        ensures { IfOk result
            (λ o. option_map shown_split o ≡ parts_by_place (R.args r.now) (texts read_only.now)) }
    {
        match Direction::for_routable(alloc, r, read_only)? {
            Direction::Parts(parts) => Ok(Some(parts)),
            _ => Ok(None),
        }
    }

    /// The command of each part, in the order of the routes: for its places that of
    /// `command_for_multi_slot_indices`. It takes as long as the command and all these commands are.
    ///
    /// # Errors
    /// `AllocError` where memory is refused.
    pub fn commands<R: Routable>(&self, alloc: Global, original: &R) -> Result<Vec<Cmd>, AllocError>
        ensures { IfOk result
            (λ v. v.items ≡ map (λ p. with_texts new_command (sub_at (R.args original.now) p.1))
            (shown_parts self.now.routes.items)) }
    {
        let args = original.each_argument(alloc)?;
        commands_at(alloc, &args, &self.routes)
    }

    /// The routes in their order, each with the arguments that the command of its part is sent with:
    /// those of `commands`. It takes as long as the command and all these arguments are.
    ///
    /// # Errors
    /// `AllocError` where memory is refused.
    pub fn routed_args<R: Routable>(
        &self,
        alloc: Global,
        original: &R,
    ) -> Result<Vec<(Route, Vec<Vec<u8>>)>, AllocError>
        ensures { IfOk result
            (λ v. shown_routed v.items ≡ map (λ p. (p.0, sub_at (R.args original.now) p.1))
            (shown_parts self.now.routes.items)) }
    {
        let args = original.each_argument(alloc)?;
        routed_args_at(alloc, &args, shared_in(&args), &self.routes)
    }

    /// The same of the command that these are the parts of: its word is not looked up again.
    ///
    /// # Errors
    /// `AllocError` where memory is refused.
    pub fn own_routed_args<R: Routable>(
        &self,
        alloc: Global,
        original: &R,
    ) -> Result<Vec<(Route, Vec<Vec<u8>>)>, AllocError>
        requires { IsOwnSplitting (R.args original.now) (shown_split self.now).splitting }
        ensures { IfOk result
            (λ v. shown_routed v.items ≡ map (λ p. (p.0, sub_at (R.args original.now) p.1))
            (shown_parts self.now.routes.items)) }
    {
        let args = original.each_argument(alloc)?;
        routed_args_at(alloc, &args, shared_by(&args, self.pattern), &self.routes)
    }
}

/// How the commands of a word are split.
fn splitting_of(word: &[u8]) -> Option<(MultiSlotArgPattern, ResponsePolicy)>
    ensures { option_map shown_splitting result ≡ splitting_of word.now }
{
    match rule_for(word, is_family(word)) {
        Rule::Split(pattern, policy) => Some((pattern, policy)),
        _ => None,
    }
}

/// The parts of a split command whose arguments, with the word, are these bytes.
pub(crate) fn parts_of_bytes(
    alloc: Global,
    args: &[&[u8]],
    role: SlotAddr,
    pattern: MultiSlotArgPattern,
    policy: ResponsePolicy,
) -> Result<Option<SplitParts>, AllocError>
    ensures { IfOk result
        (λ o. option_map shown_split o
        ≡ parts_by_role role (shown_splitting (pattern, policy)) (lent args.now)) }
{
    match routes_of(alloc, args, role, pattern)? {
        None => Ok(None),
        Some(routes) => Ok(some_parts(routes, pattern, policy)),
    }
}

/// No part is none.
fn some_parts(
    routes: Vec<(Route, Vec<usize>)>,
    pattern: MultiSlotArgPattern,
    policy: ResponsePolicy,
) -> Option<SplitParts>
    ensures { option_map shown_split result
        ≡ parts_with_routes (shown_splitting (pattern, policy)) (shown_parts routes.items) }
{
    match routes.as_slice() {
        [] => None,
        _ => Some(SplitParts {
            routes,
            pattern,
            policy,
        }),
    }
}

/// The command of one part: the word as given, then the arguments at these places behind it, of
/// which the first is at 0, then the last argument where all parts of such a word share it. A gap,
/// and a place behind the last argument, writes nothing. (Documentation of the crate `redis`,
/// `cluster_routing`.)
///
/// It takes as long as the command and the places are, in whatever order these stand.
///
/// # Errors
/// `AllocError` where memory is refused.
pub fn command_for_multi_slot_indices<R: Routable>(
    alloc: Global,
    original: &R,
    indices: &[usize],
) -> Result<Cmd, AllocError>
    ensures { IfOk result (λ c. c ≡ with_texts new_command (sub_at (R.args original.now) indices.now)) }
{
    let args = original.each_argument(alloc)?;
    command_at(alloc, &args, indices)
}

fn commands_at(
    alloc: Global,
    args: &[Option<&[u8]>],
    routes: &[(Route, Vec<usize>)],
) -> Result<Vec<Cmd>, AllocError>
    ensures { IfOk result
        (λ v. v.items ≡ map (λ p. with_texts new_command (sub_of (lent_texts args.now) p.1))
        (shown_parts routes.now)) }
{
    let mut commands = Vec::new(alloc);
    'routes: for part in routes {
        commands.push(command_at(alloc, args, &part.1)?)?;
    }
    Ok(commands)
}

fn command_at(alloc: Global, args: &[Option<&[u8]>], places: &[usize]) -> Result<Cmd, AllocError>
    ensures { IfOk result (λ c. c ≡ with_texts new_command (sub_of (lent_texts args.now) places.now)) }
{
    let mut cmd = Cmd::new(alloc);
    if let [word, behind @ ..] = args {
        write(&mut cmd, *word)?;
        write_all_at(&mut cmd, behind, places)?;
        write_shared(&mut cmd, *word, behind)?;
    }
    Ok(cmd)
}

/// Writes an argument, if it is no gap.
fn write(cmd: &mut Cmd, arg: Option<&[u8]>) -> Result<(), AllocError>
    ensures { IfOk result
        (λ _. cmd.new ≡ with_texts cmd.old (text_list (Some (option_map (λ a. a.now) arg.entry)))) }
{
    match arg {
        Some(bytes) => cmd.arg(bytes),
        None => Ok(()),
    }
}

/// Writes the argument at a place, if it is there and no gap.
fn write_at(cmd: &mut Cmd, args: &[Option<&[u8]>], place: usize) -> Result<(), AllocError>
    ensures { IfOk result (λ _. cmd.new ≡ with_texts cmd.old (text_at (lent_texts args.now) place)) }
{
    match args.get(place) {
        Some(arg) => write(cmd, *arg),
        None => Ok(()),
    }
}

fn write_all_at(cmd: &mut Cmd, args: &[Option<&[u8]>], places: &[usize]) -> Result<(), AllocError>
    ensures { IfOk result
        (λ _. cmd.new ≡ with_texts cmd.old (flat_map (text_at (lent_texts args.now)) places.now)) }
{
    'places: for place in places {
        write_at(cmd, args, *place)?;
    }
    Ok(())
}

/// Writes the argument that all parts share, where they share one.
fn write_shared(
    cmd: &mut Cmd,
    word: Option<&[u8]>,
    behind: &[Option<&[u8]>],
) -> Result<(), AllocError>
    ensures { IfOk result (λ _. cmd.new ≡ with_texts cmd.old
        (shared_text (lent_splitting word.entry) (lent_texts behind.now))) }
{
    match splitting_in(word) {
        None => Ok(()),
        Some((pattern, _)) => write_at(cmd, behind, len_in_tuples(pattern, behind.len())),
    }
}

fn splitting_in(word: Option<&[u8]>) -> Option<(MultiSlotArgPattern, ResponsePolicy)>
    ensures { option_map shown_splitting result ≡ lent_splitting word.entry }
{
    match word {
        None => None,
        Some(word) => splitting_of(word),
    }
}

/// The routes, each with what the command of its part is sent with, where the parts share this.
fn routed_args_at(
    alloc: Global,
    args: &[Option<&[u8]>],
    shared: Option<&[u8]>,
    routes: &[(Route, Vec<usize>)],
) -> Result<Vec<(Route, Vec<Vec<u8>>)>, AllocError>
    requires { text_list (Some (option_map (λ a. a.now) shared)) ≡ shared_in (lent_texts args.now) }
    ensures { IfOk result
        (λ v. shown_routed v.items ≡ map (λ p. (p.0, sub_of (lent_texts args.now) p.1))
        (shown_parts routes.now)) }
{
    let mut routed = Vec::with_capacity(alloc, routes.len())?;
    'routes: for part in routes {
        routed.push((part.0, args_at(alloc, args, shared, &part.1)?))?;
    }
    Ok(routed)
}

/// The argument that all parts share, where they share one that is no gap.
fn shared_in<'a>(args: &[Option<&'a [u8]>]) -> Option<&'a [u8]>
    ensures { text_list (Some (option_map (λ a. a.now) result)) ≡ shared_in (lent_texts args.now) }
{
    let [word, behind @ ..] = args else {
        return None;
    };
    shared_behind(*word, behind)
}

fn shared_behind<'a>(word: Option<&[u8]>, behind: &[Option<&'a [u8]>]) -> Option<&'a [u8]>
    ensures { text_list (Some (option_map (λ a. a.now) result))
        ≡ shared_text (lent_splitting word.entry) (lent_texts behind.now) }
{
    match splitting_in(word) {
        None => None,
        Some((pattern, _)) => arg_at(behind, len_in_tuples(pattern, behind.len())),
    }
}

/// The argument that the parts of a command share whose tuples have this pattern.
fn shared_by<'a>(args: &[Option<&'a [u8]>], pattern: MultiSlotArgPattern) -> Option<&'a [u8]>
    ensures { text_list (Some (option_map (λ a. a.now) result)) ≡ shared_with pattern (lent_texts args.now) }
{
    let [_, behind @ ..] = args else {
        return None;
    };
    arg_at(behind, len_in_tuples(pattern, behind.len()))
}

/// The argument at a place, if it is there and no gap.
fn arg_at<'a>(args: &[Option<&'a [u8]>], place: usize) -> Option<&'a [u8]>
    ensures { text_list (Some (option_map (λ a. a.now) result)) ≡ text_at (lent_texts args.now) place }
{
    match args.get(place) {
        None => None,
        Some(arg) => *arg,
    }
}

/// What the command of the part at these places is sent with.
fn args_at(
    alloc: Global,
    args: &[Option<&[u8]>],
    shared: Option<&[u8]>,
    places: &[usize],
) -> Result<Vec<Vec<u8>>, AllocError>
    requires { text_list (Some (option_map (λ a. a.now) shared)) ≡ shared_in (lent_texts args.now) }
    ensures { IfOk result (λ v. texts v.items ≡ sub_of (lent_texts args.now) places.now) }
{
    let [word, behind @ ..] = args else {
        return Ok(Vec::new(alloc));
    };
    let mut list = Vec::with_capacity(alloc, places.len() + 1 + usize::from(shared.is_some()))?;
    push_arg(&mut list, *word)?;
    push_args_at(&mut list, behind, places)?;
    push_arg(&mut list, shared)?;
    Ok(list)
}

/// Adds an argument, if it is no gap.
fn push_arg(list: &mut Vec<Vec<u8>>, arg: Option<&[u8]>) -> Result<(), AllocError>
    ensures { IfOk result
        (λ _. texts list.new.items
        ≡ texts list.old.items ++ text_list (Some (option_map (λ a. a.now) arg.entry))) }
{
    if let Some(bytes) = arg {
        list.push(Vec::from_slice(*list.allocator(), bytes)?)?;
    }
    Ok(())
}

fn push_args_at(
    list: &mut Vec<Vec<u8>>,
    args: &[Option<&[u8]>],
    places: &[usize],
) -> Result<(), AllocError>
    ensures { IfOk result
        (λ _. texts list.new.items
        ≡ texts list.old.items ++ flat_map (text_at (lent_texts args.now)) places.now) }
{
    'places: for place in places {
        push_arg(list, arg_at(args, *place))?;
    }
    Ok(())
}
