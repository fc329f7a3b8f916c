//! Hypotheses that differ in nothing that may still tell them apart.

use super::hypothesis::{Epoch, Front, Hypothesis, epoch_of};
use crate::movement::Standing;
use dna_station::Tag;
use std::alloc::{AllocError, Global};

// Periods of both sides in two hypotheses, each with the one that it stands for in the other.
#[derive(Drop)]
struct Names {
    a: Vec<(u64, u64)>,
    b: Vec<(u64, u64)>,
}

/// Whether two hypotheses are alike: only the numbers of their periods differ, and how many packets were kept. `AllocError` where there is no memory
/// to tell it.
pub(super) fn are_alike(
    alloc: Global,
    one: &Hypothesis,
    other: &Hypothesis,
) -> Result<bool, AllocError> {
    if !have_like_states(&one.a, &other.a) || !have_like_states(&one.b, &other.b) {
        return Ok(false);
    }
    let mut names = Names {
        a: Vec::new(alloc),
        b: Vec::new(alloc),
    };
    if !are_fronts_alike(
        &one.a,
        &other.a,
        one.b.least_come(),
        &mut names.a,
        &mut names.b,
    )? {
        return Ok(false);
    }
    are_fronts_alike(
        &one.b,
        &other.b,
        one.a.least_come(),
        &mut names.b,
        &mut names.a,
    )
}

// Whether the states are the same but for their periods.
fn have_like_states(one: &Front, other: &Front) -> bool {
    if one.states.len() != other.states.len() {
        return false;
    }
    for at in 0..one.states.len() {
        match (one.states.get(at), other.states.get(at)) {
            (Some(state), Some(like)) if is_like(state, like) => {}
            _ => return false,
        }
    }
    true
}

fn is_like(state: &Standing, like: &Standing) -> bool {
    state.come == like.come && state.station.is_like(&like.station)
}

// Whether the periods of the states, and of the units from this one on, can stand for each other.
fn are_fronts_alike(
    one: &Front,
    other: &Front,
    from: u64,
    own: &mut Vec<(u64, u64)>,
    partners: &mut Vec<(u64, u64)>,
) -> Result<bool, AllocError> {
    for at in 0..one.states.len() {
        if let (Some(state), Some(like)) = (one.states.get(at), other.states.get(at)) {
            if !are_tags_alike(state.station.tag(), like.station.tag(), own, partners)? {
                return Ok(false);
            }
        }
    }
    let first = epoch_of(&one.epochs, from);
    let like_first = epoch_of(&other.epochs, from);
    let count = one.epochs.len().saturating_sub(first);
    if count != other.epochs.len().saturating_sub(like_first) {
        return Ok(false);
    }
    for at in 0..count {
        let epoch = one.epochs.get(first.saturating_add(at)).copied();
        let like = other.epochs.get(like_first.saturating_add(at)).copied();
        if let (Some(epoch), Some(like)) = (epoch, like) {
            if !is_epoch_alike(epoch, like, from, own, partners)? {
                return Ok(false);
            }
        }
    }
    Ok(true)
}

fn is_epoch_alike(
    epoch: Epoch,
    like: Epoch,
    from: u64,
    own: &mut Vec<(u64, u64)>,
    partners: &mut Vec<(u64, u64)>,
) -> Result<bool, AllocError> {
    if epoch.from.max(from) != like.from.max(from) {
        return Ok(false);
    }
    are_tags_alike(epoch.tag, like.tag, own, partners)
}

fn are_tags_alike(
    tag: Tag,
    like: Tag,
    own: &mut Vec<(u64, u64)>,
    partners: &mut Vec<(u64, u64)>,
) -> Result<bool, AllocError> {
    if !stand_for_each_other(own, tag.period, like.period)? {
        return Ok(false);
    }
    match (tag.partner, like.partner) {
        (Some(partner), Some(other)) => stand_for_each_other(partners, partner, other),
        (None, None) => Ok(true),
        _ => Ok(false),
    }
}

// Whether these two periods stand for each other, from now on if neither stood for one.
fn stand_for_each_other(
    names: &mut Vec<(u64, u64)>,
    period: u64,
    like: u64,
) -> Result<bool, AllocError> {
    for at in 0..names.len() {
        if let Some((one, other)) = names.get(at).copied() {
            if one == period || other == like {
                return Ok(one == period && other == like);
            }
        }
    }
    names.push((period, like))?;
    Ok(true)
}
