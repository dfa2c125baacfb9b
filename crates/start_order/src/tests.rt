//! Small graphs, of units that are letters, and of edges that are two letters.
ghost use Rattle.std.specs.Prelude.{IfSome};
ghost use Rattle.std.specs.List.Sorted.{IsStrictlySortedBy};
ghost use Rattle.host_trait.specs.Bytes.{bytes_cmp};

use crate::{Cycle, Edge, Ordered, check, edges_between, order};
use host_trait::UnitSet;
use std::alloc::Global;
use switch_names::{Listed, UnitName};

/// The unit of a letter.
fn unit_of(alloc: Global, letter: char) -> Option<UnitName> {
    let text = format!(in alloc; "{letter}.service").ok()?;
    UnitName::parse(alloc, text.as_str()).ok()
}

/// The units of letters.
fn units_of(alloc: Global, letters: &str) -> Option<Listed<UnitName>>
    ensures { IfSome result (IsStrictlySortedBy bytes_cmp) }
{
    let mut set = UnitSet::new(alloc);
    for letter in letters.chars() {
        set.insert(unit_of(alloc, letter)?).ok()?;
    }
    set.into_names(alloc).ok()
}

/// The edge of a word.
fn edge_of(alloc: Global, word: &str) -> Option<Edge> {
    let mut letters = word.chars();
    let before = unit_of(alloc, letters.next()?)?;
    let after = unit_of(alloc, letters.next()?)?;
    Some(Edge { before, after })
}

/// The edges of words.
fn edges_of(alloc: Global, words: &str) -> Option<Vec<Edge>> {
    let mut edges = Vec::new(alloc);
    for word in words.split_whitespace() {
        edges.push(edge_of(alloc, word)?).ok()?;
    }
    Some(edges)
}

/// Units in order.
fn ordered_of(alloc: Global, letters: &str, words: &str) -> Option<Ordered> {
    let units = units_of(alloc, letters)?;
    let given = edges_of(alloc, words)?;
    let edges = edges_between(alloc, &units, given.as_slice()).ok()?;
    order(alloc, &units, &edges).ok()
}

/// Adds the letters of units.
fn add_letters(text: &mut String, units: &[UnitName]) -> Option<()> {
    for unit in units {
        text.push_str(unit.stem()).ok()?;
    }
    Some(())
}

/// Adds a broken unit and its cycle.
fn add_broken(text: &mut String, unit: &UnitName, cycle: &Cycle) -> Option<()> {
    text.push(' ').ok()?;
    text.push_str(unit.stem()).ok()?;
    text.push(':').ok()?;
    add_letters(text, cycle.units.as_slice())
}

/// The units in order, and each broken one with its cycle.
fn shown(alloc: Global, letters: &str, words: &str) -> Option<String> {
    let ordered = ordered_of(alloc, letters, words)?;
    let mut text = String::new(alloc);
    add_letters(&mut text, ordered.units.as_slice())?;
    for (unit, cycle) in ordered
        .broken
        .as_slice()
        .iter()
        .zip(ordered.cycles.as_slice())
    {
        add_broken(&mut text, unit, cycle)?;
    }
    if !check(&ordered) {
        text.push('!').ok()?;
    }
    Some(text)
}

/// Letters, words, and what is shown: worked out by hand.
const GRAPHS: &[(&str, &str, &str)] = &[
    ("abc", "", "abc"),
    ("abc", "cb ba", "cba"),
    ("abt", "ba", "bat"),
    ("abt", "ab ba", "tab a:ab"),
    ("abcd", "da db dc", "dabc"),
    ("abcd", "ad bd cd", "abcd"),
    ("abcd", "ab ac bd cd", "abcd"),
    ("abc", "ab bc ca", "abc a:acb"),
    ("abc", "ba ca cb bc", "abc a:bc b:bc"),
    ("abcd", "da ab bc cd", "abcd a:adcb"),
    ("abcd", "ba ab dc cd", "abcd a:ab c:cd"),
    ("ab", "ba ba ba", "ba"),
    ("ab", "aa", "ab"),
    ("ab", "cb ca ac", "ab"),
    ("", "ab", ""),
];

#[test]
fn small_graphs_are_ordered_as_by_hand(rt: HostRuntime) {
    for (letters, words, wanted) in GRAPHS {
        let is_wanted = match shown(rt.alloc(), letters, words) {
            Some(text) => text.as_str() == *wanted,
            None => false,
        };
        assert!(rt; is_wanted, "{letters}, {words}");
    }
}

/// The edges of a graph by its number: each bit is one of those between two different letters.
fn graph_of(alloc: Global, letters: &[char], number: u32) -> Option<Vec<(char, char)>> {
    let mut edges = Vec::new(alloc);
    let mut bits = number;
    for before in letters {
        for after in letters {
            if before != after {
                if bits % 2 == 1 {
                    edges.push((*before, *after)).ok()?;
                }
                bits /= 2;
            }
        }
    }
    Some(edges)
}

/// Whether an edge leads to a letter from one that is left.
fn is_held(edges: &[(char, char)], left: &[char], letter: char) -> bool {
    edges
        .iter()
        .any(|edge| edge.1 == letter && left.contains(&edge.0))
}

/// The place of the first letter that is left and isn't held.
fn first_free(edges: &[(char, char)], left: &[char]) -> Option<usize> {
    for at in 0..left.len() {
        if !is_held(edges, left, left[at]) {
            return Some(at);
        }
    }
    None
}

/// The letters in the order of a plain walk, and then the broken ones.
fn walked(alloc: Global, letters: &[char], edges: &[(char, char)]) -> Option<String> {
    let mut left = Vec::new(alloc);
    left.extend_from_slice(letters).ok()?;
    let mut order = String::new(alloc);
    let mut broken = String::new(alloc);
    for _ in letters {
        let free = first_free(edges, left.as_slice());
        if free.is_none() {
            broken.push(*left.first()?).ok()?;
        }
        let at = free.unwrap_or(0);
        if at < left.len() {
            order.push(left.remove(at)).ok()?;
        }
    }
    order.push(' ').ok()?;
    order.push_str(broken.as_str()).ok()?;
    Some(order)
}

/// The letters as they are ordered, and then the broken ones.
fn ordered(alloc: Global, letters: &[char], edges: &[(char, char)]) -> Option<String> {
    let mut units = UnitSet::new(alloc);
    for letter in letters {
        units.insert(unit_of(alloc, *letter)?).ok()?;
    }
    let units = units.into_names(alloc).ok()?;
    let mut given = Vec::new(alloc);
    for (before, after) in edges {
        let (before, after) = (unit_of(alloc, *before)?, unit_of(alloc, *after)?);
        given.push(Edge { before, after }).ok()?;
    }
    let edges = edges_between(alloc, &units, given.as_slice()).ok()?;
    let ordered = order(alloc, &units, &edges).ok()?;
    let mut text = String::new(alloc);
    add_letters(&mut text, ordered.units.as_slice())?;
    text.push(' ').ok()?;
    add_letters(&mut text, ordered.broken.as_slice())?;
    check(&ordered).then_some(text)
}

/// Whether a graph is ordered as by a plain walk.
fn is_as_walked(alloc: Global, letters: &[char], number: u32) -> Option<bool> {
    let edges = graph_of(alloc, letters, number)?;
    let one = ordered(alloc, letters, edges.as_slice())?;
    let other = walked(alloc, letters, edges.as_slice())?;
    Some(one.as_str() == other.as_str())
}

#[test]
fn all_graphs_of_four_units_are_ordered_as_by_a_plain_walk(rt: HostRuntime) {
    for number in 0..4096 {
        let is_as_walked = is_as_walked(rt.alloc(), &['a', 'b', 'c', 'd'], number);
        assert!(rt; is_as_walked == Some(true), "{number}");
    }
}
