// What a stop leaves of one area, by the calls that were kept.
ghost use Rattle.std.specs.Prelude.{◌≡◌, ◌≤◌, ℕ, List, length, take, drop, OnOk, IfOk};
ghost use Rattle.arc_io.specs.KeptCalls.{written, filled_after, filled_write, counts_own, stop_at};
ghost use Rattle.arc_io.specs.Replays.{is_sync_of, replayed, replayed_all, replayed_from};

use super::disk::put;
use super::disk_kept::{Deed, Fill, Kept};
use crate::Area;
use std::alloc::{AllocError, Global};

// How many of the first calls count where the disk stops within the call of that number.
pub fn end_of(past: &[Kept], call: u64) -> usize
    ensures within { result ≤ length past.now }
    ensures count { result ≡ stop_at call past.now }
{
    for (i, kept) in past.iter().enumerate() {
        if kept.call >= call {
            return i + own(kept, call);
        }
    }
    past.len()
}

// 1 where this is a write of that number.
fn own(kept: &Kept, call: u64) -> usize
    ensures bound { result ≤ 1 }
    ensures count { result ≡ counts_own call kept.now.call kept.now.deed }
{
    match kept.deed {
        Deed::Write { .. } => { if kept.call == call { 1 } else { 0 } }
        Deed::Sync => 0,
    }
}

// The area's image, where these calls count.
pub fn image_of(
    alloc: Global,
    first: &[u8],
    past: &[Kept],
    area: Area,
    fill: Fill,
) -> Result<Vec<u8>, AllocError>
    ensures { IfOk result (λ v. v.items ≡ filled_after area fill first.now first.now past.now) }
{
    let (synced, pending) = past.split_at(synced_until(past, area));
    let mut image = first.to_vec(alloc)?;
    replay(alloc, &mut image, area, synced, Fill::New)?;
    replay(alloc, &mut image, area, pending, fill)?;
    Ok(image)
}

// How many of the first calls end with the area's last sync.
fn synced_until(past: &[Kept], area: Area) -> usize
    ensures within { result ≤ length past.now }
    ensures image { (fill : Fill) (first : List ℕ) → filled_after area fill first first past.now
        ≡ replayed_from area fill first result past.now }
{
    let mut synced = 0;
    for (i, kept) in past.iter().enumerate() {
        if syncs(kept, area) {
            synced = i + 1;
        }
    }
    synced
}

// This is a sync of the area.
fn syncs(kept: &Kept, area: Area) -> bool
    ensures { result ≡ is_sync_of area kept.now.area kept.now.deed }
{
    match (&kept.deed, kept.area, area) {
        (Deed::Sync, Area::A, Area::A) | (Deed::Sync, Area::B, Area::B) => true,
        _ => false,
    }
}

// Each write of the area as the fill has it.
fn replay(
    alloc: Global,
    image: &mut Vec<u8>,
    area: Area,
    past: &[Kept],
    fill: Fill,
) -> Result<(), AllocError>
    ensures { OnOk result (image.new.items ≡ replayed_all area fill image.old.items past.now) }
{
    for kept in past {
        match (&kept.deed, kept.area, area) {
            (Deed::Write { at, bytes }, Area::A, Area::A)
            | (Deed::Write { at, bytes }, Area::B, Area::B) => {
                fill_write(alloc, image, *at, bytes, fill)?
            }
            _ => {}
        }
    }
    Ok(())
}

// The write as the fill has it.
fn fill_write(
    alloc: Global,
    image: &mut Vec<u8>,
    at: u64,
    bytes: &[u8],
    fill: Fill,
) -> Result<(), AllocError>
    ensures { OnOk result (image.new.items ≡ filled_write fill at bytes.now image.old.items) }
{
    match fill {
        Fill::Old => Ok(()),
        Fill::New => put_within(image, at, bytes),
        Fill::Torn(byte) => {
            let torn = vec![in alloc; byte; bytes.len()]?;
            put_within(image, at, &torn)
        }
    }
}

// Puts the bytes at the place, or at the end where that comes first.
fn put_within(content: &mut Vec<u8>, at: u64, bytes: &[u8]) -> Result<(), AllocError>
    ensures { OnOk result (content.new.items ≡ written at bytes.now content.old.items) }
{
    let at = at.min(content.len() as u64);
    put(content, at as usize, bytes)
}
