//! A cache: one key at a time, and some at once.
use crate::cluster::{Layout, Link, PIECE, client, relink, sent, silence, slot_of};
use crate::digest::Digest;
use crate::inputs::{Pool, key, push_head};
use crate::random::Numbers;
use anyhow::Result;
use cluster_client::{ClusterClient, Cmd, command};
use std::alloc::Global;

/// How many look-ups a round makes.
const LOOK_UPS: usize = 2_000;

/// A look-up.
#[derive(Drop)]
enum LookUp {
    /// Of one key, which is set where it is missing.
    One(Vec<u8>),
    /// Of several keys.
    Several(Vec<Vec<u8>>),
}

/// The look-ups of a round, and what each node replies to them.
#[derive(Drop)]
struct Plan {
    look_ups: Vec<LookUp>,
    replies: Vec<Vec<u8>>,
}

/// Puts the reply to a GET behind these bytes; every tenth key is missing. Whether the key is there.
fn push_value(out: &mut Vec<u8>, numbers: &mut Numbers, pool: &Pool) -> Result<bool> {
    if numbers.below(10) == 9 {
        out.extend_from_slice(b"$-1\r\n")?;
        return Ok(false);
    }
    pool.push_bulk(out, pool.value(numbers))?;
    Ok(true)
}

impl Plan {
    fn add_one(
        &mut self,
        alloc: Global,
        numbers: &mut Numbers,
        pool: &Pool,
        layout: Layout,
    ) -> Result<()> {
        let key = key(alloc, numbers)?;
        if let Some(of) = self.replies.get_mut(layout.node_of_key(&key))
            && !push_value(of, numbers, pool)?
        {
            of.extend_from_slice(b"+OK\r\n")?;
        }
        self.look_ups.push(LookUp::One(key))?;
        Ok(())
    }

    fn add_several(
        &mut self,
        alloc: Global,
        numbers: &mut Numbers,
        pool: &Pool,
        layout: Layout,
    ) -> Result<()> {
        let mut keys = Vec::new(alloc);
        let mut slots = Vec::new(alloc);
        for _ in 0..numbers.between(10, 101) {
            let key = key(alloc, numbers)?;
            slots.push(slot_of(&key))?;
            keys.push(key)?;
        }
        reply_in_parts(&mut self.replies, numbers, pool, layout, &slots)?;
        self.look_ups.push(LookUp::Several(keys))?;
        Ok(())
    }
}

/// Puts the replies to the parts of an MGET of keys with these slots behind those of the nodes.
pub fn reply_in_parts(
    replies: &mut [Vec<u8>],
    numbers: &mut Numbers,
    pool: &Pool,
    layout: Layout,
    slots: &[usize],
) -> Result<()> {
    for (place, slot) in slots.iter().enumerate() {
        if slots.iter().take(place).any(|earlier| earlier == slot) {
            continue;
        }
        let count = slots.iter().filter(|other| *other == slot).count();
        if let Some(of) = replies.get_mut(layout.node_of(*slot)) {
            push_head(of, b'*', count)?;
            for _ in 0..count {
                push_value(of, numbers, pool)?;
            }
        }
    }
    Ok(())
}

fn make_plan(alloc: Global, numbers: &mut Numbers, pool: &Pool, layout: Layout) -> Result<Plan> {
    let mut plan = Plan {
        look_ups: Vec::with_capacity(alloc, LOOK_UPS)?,
        replies: silence(alloc, layout.nodes)?,
    };
    for _ in 0..LOOK_UPS {
        if numbers.below(64) == 0 {
            plan.add_several(alloc, numbers, pool, layout)?;
        } else {
            plan.add_one(alloc, numbers, pool, layout)?;
        }
    }
    Ok(plan)
}

fn with_key(alloc: Global, name: &str, key: &[u8]) -> Result<Cmd> {
    let mut cmd = command::cmd(alloc, name)?;
    cmd.arg(key)?;
    Ok(cmd)
}

/// Gets a key, and sets it where it is missing.
fn look_up_one(
    alloc: Global,
    numbers: &mut Numbers,
    pool: &Pool,
    client: &mut ClusterClient<Link>,
    key: &[u8],
    digest: &mut Digest,
) -> Result<()> {
    let get = with_key(alloc, "GET", key)?;
    let value: Option<String> = client.query(alloc, &get, 0, None)?;
    digest.optional(value.as_ref().map(|text| text.as_bytes()));
    if value.is_none() {
        let mut set = with_key(alloc, "SET", key)?;
        set.arg(pool.value(numbers))?;
        set.arg(("EX", 60))?;
        let () = client.query(alloc, &set, 0, None)?;
    }
    digest.number(client.asked().len() as u64);
    Ok(())
}

fn look_up_several(
    alloc: Global,
    client: &mut ClusterClient<Link>,
    keys: &[Vec<u8>],
    digest: &mut Digest,
) -> Result<()> {
    let mut mget = command::cmd(alloc, "MGET")?;
    for key in keys {
        mget.arg(key.as_slice())?;
    }
    let values: Vec<Option<Vec<u8>>> = client.query(alloc, &mget, 0, None)?;
    for value in &values {
        digest.optional(value.as_ref().map(|bytes| bytes.as_slice()));
    }
    digest.number(client.asked().len() as u64);
    Ok(())
}

/// Looks keys up, one in sixty-four times 10 to 100 keys at once, over a cluster of 3 to 6 primaries.
pub fn look_up(alloc: Global, numbers: &mut Numbers, digest: &mut Digest) -> Result<()> {
    let layout = Layout {
        nodes: numbers.between(3, 7),
        ranges: numbers.between(6, 101),
    };
    let pool = Pool::new(alloc, numbers)?;
    let mut client = client(alloc, numbers, layout, 1)?;
    let Plan { look_ups, replies } = make_plan(alloc, numbers, &pool, layout)?;
    relink(alloc, &mut client, replies, PIECE, digest)?;
    for look_up in &look_ups {
        match look_up {
            LookUp::One(key) => look_up_one(alloc, numbers, &pool, &mut client, key, digest)?,
            LookUp::Several(keys) => look_up_several(alloc, &mut client, keys, digest)?,
        }
    }
    sent(alloc, client, digest)
}
