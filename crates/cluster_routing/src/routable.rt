//! Commands whose arguments can be looked at.

ghost use Rattle.std.specs.Prelude.{◌≡◌, ◌++◌, ◌∷◌, map, option_map, position, slice_get, IfOk, Some, ◌+◌, ◌<◌, ◌^◌};
ghost use Rattle.std.specs.Option.{IfSome};
ghost use Rattle.std.specs.Str.{str_to_ascii_uppercase};
ghost use Rattle.resp_core.specs.View.{view};
ghost use Rattle.resp_args.specs.Left.{shown};
ghost use Rattle.cluster_routing.specs.Command.{all_bytes, arg_in, bytes_of, is_word, name_by, place_of, texts_in};
ghost use Rattle.cluster_routing.specs.Info.{lent_texts};
ghost use Rattle.cluster_routing.specs.Routing.{name_of};
ghost use Rattle.cluster_routing.specs.Table.{is_family};

use crate::slots_reply::items_of;
use crate::table::{is_family, is_same_word};
use resp_args::{Arg, ArgsIter, Cmd};
use resp_core::Value;
use std::alloc::{AllocError, Global};

/// A command whose arguments can be looked at: each is bytes, or a gap. (Documentation of the
/// crate `redis`.)
pub trait Routable {
    ghost use Rattle.cluster_routing.specs.Command.{Args};

    /// The arguments.
    ghost args: { Self → Args };

    /// The bytes of the argument at a place, counted from 0; `None` for a gap, and behind the
    /// last. It takes no memory.
    fn arg_idx(&self, idx: usize) -> Option<&[u8]>
        ensures { option_map (λ a. a.now) result ≡ bytes_of (slice_get (args self.now) idx) };

    /// The place of the first argument that is this word, whatever the case of ASCII letters.
    /// It takes no memory.
    fn position(&self, candidate: &[u8]) -> Option<usize>
        ensures { result ≡ place_of candidate.now (args self.now) };

    /// The bytes of all arguments in order; `None` where one is a gap.
    ///
    /// # Errors
    /// `AllocError` where memory is refused.
    fn arguments(&self, alloc: Global) -> Result<Option<Vec<&[u8]>>, AllocError>
        ensures { IfOk result
            (λ o. option_map (λ v. map (λ a. a.now) v.items) o ≡ all_bytes (args self.now)) };

    /// All arguments in order: the bytes of each, `None` for a gap.
    ///
    /// # Errors
    /// `AllocError` where memory is refused.
    fn each_argument(&self, alloc: Global) -> Result<Vec<Option<&[u8]>>, AllocError>
        ensures { IfOk result (λ v. lent_texts v.items ≡ texts_in (args self.now)) };

    /// The name of the command in upper case: its first argument, and for a family's word a space
    /// and the second argument behind it; `None` where the first is missing or a gap.
    ///
    /// # Errors
    /// `AllocError` where memory is refused.
    final fn command(&self, alloc: Global) -> Result<Option<Vec<u8>>, AllocError>
        ensures { IfOk result
            (λ o. option_map (λ v. v.items) o ≡ option_map str_to_ascii_uppercase (name_of (args self.now))) }
    {
        match self.arg_idx(0) {
            None => Ok(None),
            Some(word) => Ok(Some(upper_name(alloc, word, self.arg_idx(1))?)),
        }
    }
}

fn upper_name(alloc: Global, word: &[u8], second: Option<&[u8]>) -> Result<Vec<u8>, AllocError>
    ensures { IfOk result
        (λ v. v.items ≡ str_to_ascii_uppercase
        (name_by word.now (is_family word.now) (option_map (λ a. a.now) second.entry))) }
{
    Ok(in_upper_case(spelled_name(alloc, word, second)?))
}

fn in_upper_case(mut text: Vec<u8>) -> Vec<u8>
    ensures { result.items ≡ str_to_ascii_uppercase text.items }
{
    text.make_ascii_uppercase();
    text
}

pub(crate) fn spelled_name(
    alloc: Global,
    word: &[u8],
    second: Option<&[u8]>,
) -> Result<Vec<u8>, AllocError>
    ensures { IfOk result
        (λ v. v.items ≡ name_by word.now (is_family word.now) (option_map (λ a. a.now) second.entry)) }
{
    if !is_family(word) {
        return Vec::from_slice(alloc, word);
    }
    match second {
        None => Vec::from_slice(alloc, word),
        Some(second) => family_name(alloc, word, second),
    }
}

/// A family's word, a space and the second argument.
fn family_name(alloc: Global, word: &[u8], second: &[u8]) -> Result<Vec<u8>, AllocError>
    ensures { IfOk result (λ v. v.items ≡ word.now ++ 32 ∷ second.now) }
{
    let mut name = Vec::from_slice(alloc, word)?;
    name.push(b' ')?;
    name.extend_from_slice(second)?;
    Ok(name)
}

/// The bytes of an argument, if it is no gap.
fn bytes_in<'a>(arg: Arg<&'a [u8]>) -> Option<&'a [u8]>
    ensures { option_map (λ a. a.now) result ≡ bytes_of (Some (shown arg.entry)) }
{
    match arg {
        Arg::Simple(bytes) => Some(bytes),
        Arg::Cursor => None,
    }
}

fn is_word(word: &[u8], arg: Arg<&[u8]>) -> bool
    ensures { result ≡ is_word word.now (shown arg.entry) }
{
    match arg {
        Arg::Simple(bytes) => is_same_word(word, bytes),
        Arg::Cursor => false,
    }
}

fn arg_at<'a>(args: ArgsIter<'a>, idx: usize) -> Option<&'a [u8]>
    ensures { option_map (λ a. a.now) result ≡ bytes_of (slice_get args.entry idx) }
{
    let mut before = idx;
    for arg in args {
        if before == 0 {
            return bytes_in(arg);
        }
        before -= 1;
    }
    None
}

fn place_in(args: ArgsIter<'_>, word: &[u8]) -> Option<usize>
    ensures { result ≡ place_of word.now args.entry }
{
    let mut place = 0;
    for arg in args {
        if place == usize::MAX {
            return None;
        }
        if is_word(word, arg) {
            return Some(place);
        }
        place += 1;
    }
    None
}

fn all_in<'a>(alloc: Global, args: ArgsIter<'a>) -> Result<Option<Vec<&'a [u8]>>, AllocError>
    ensures { IfOk result (λ o. option_map (λ v. map (λ a. a.now) v.items) o ≡ all_bytes args.entry) }
{
    let mut all = Vec::new(alloc);
    for arg in args {
        match bytes_in(arg) {
            None => return Ok(None),
            Some(bytes) => all.push(bytes)?,
        }
    }
    Ok(Some(all))
}

fn each_in<'a>(alloc: Global, args: ArgsIter<'a>) -> Result<Vec<Option<&'a [u8]>>, AllocError>
    ensures { IfOk result (λ v. lent_texts v.items ≡ texts_in args.entry) }
{
    let mut each = Vec::new(alloc);
    for arg in args {
        each.push(bytes_in(arg))?;
    }
    Ok(each)
}

impl Routable for Cmd {
    ghost args = { λ c. c.args };

    fn arg_idx(&self, idx: usize) -> Option<&[u8]> {
        arg_at(self.args_iter(), idx)
    }

    fn position(&self, candidate: &[u8]) -> Option<usize> {
        place_in(self.args_iter(), candidate)
    }

    fn arguments(&self, alloc: Global) -> Result<Option<Vec<&[u8]>>, AllocError> {
        all_in(alloc, self.args_iter())
    }

    fn each_argument(&self, alloc: Global) -> Result<Vec<Option<&[u8]>>, AllocError> {
        each_in(alloc, self.args_iter())
    }
}

/// The bytes of an item, if it is a bulk.
fn bytes_of(item: &Value) -> Option<&[u8]>
    ensures { option_map (λ a. a.now) result ≡ bytes_of (Some (arg_in (view item.now))) }
{
    match item {
        Value::BulkString(bytes) => Some(bytes),
        _ => None,
    }
}

fn is_word_in(word: &[u8], item: &Value) -> bool
    ensures { result ≡ is_word word.now (arg_in (view item.now)) }
{
    match bytes_of(item) {
        Some(bytes) => is_same_word(word, bytes),
        None => false,
    }
}

fn item_at(items: &[Value], idx: usize) -> Option<&[u8]>
    ensures { option_map (λ a. a.now) result ≡ bytes_of (slice_get (map arg_in (map view items.now)) idx) }
{
    match items.get(idx) {
        Some(item) => bytes_of(item),
        None => None,
    }
}

fn place_of(items: &[Value], word: &[u8]) -> Option<usize>
    ensures { result ≡ place_of word.now (map arg_in (map view items.now)) }
{
    first_word(items, word)
}

fn first_word(items: &[Value], word: &[u8]) -> Option<usize>
    ensures first { result ≡ position (λ v. is_word word.now (arg_in (view v))) items.now }
    ensures fits { IfSome result (λ place. place + 1 < 2 ^ 64) }
{
    items.iter().position(|item| is_word_in(word, item))
}

fn all_of(alloc: Global, items: &[Value]) -> Result<Option<Vec<&[u8]>>, AllocError>
    ensures { IfOk result
        (λ o. option_map (λ v. map (λ a. a.now) v.items) o ≡ all_bytes (map arg_in (map view items.now))) }
{
    let mut all = Vec::new(alloc);
    for item in items {
        match bytes_of(item) {
            None => return Ok(None),
            Some(bytes) => all.push(bytes)?,
        }
    }
    Ok(Some(all))
}

fn each_of(alloc: Global, items: &[Value]) -> Result<Vec<Option<&[u8]>>, AllocError>
    ensures { IfOk result (λ v. lent_texts v.items ≡ texts_in (map arg_in (map view items.now))) }
{
    let mut each = Vec::new(alloc);
    for item in items {
        each.push(bytes_of(item))?;
    }
    Ok(each)
}

/// The items of an array are the arguments, of which all but bulks are gaps; any other value has
/// no arguments.
impl Routable for Value {
    ghost use Rattle.resp_core.specs.View.{view};
    ghost use Rattle.cluster_routing.specs.Command.{args_in};

    ghost args = { λ v. args_in (view v) };

    fn arg_idx(&self, idx: usize) -> Option<&[u8]> {
        match items_of(self) {
            Some(items) => item_at(items, idx),
            None => None,
        }
    }

    fn position(&self, candidate: &[u8]) -> Option<usize> {
        match items_of(self) {
            Some(items) => place_of(items, candidate),
            None => None,
        }
    }

    fn arguments(&self, alloc: Global) -> Result<Option<Vec<&[u8]>>, AllocError> {
        match items_of(self) {
            Some(items) => all_of(alloc, items),
            None => Ok(Some(Vec::new(alloc))),
        }
    }

    fn each_argument(&self, alloc: Global) -> Result<Vec<Option<&[u8]>>, AllocError> {
        match items_of(self) {
            Some(items) => each_of(alloc, items),
            None => Ok(Vec::new(alloc)),
        }
    }
}
