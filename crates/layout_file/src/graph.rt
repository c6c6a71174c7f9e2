//! Loops and segments apart. The parts of a network are its segments and after them its repeaters.
ghost use Rattle.std.specs.Prelude.{◌≡◌, ◌==◌, [], IfOk, map, slice_index};
ghost use Rattle.layout_file.specs.GraphFaults.{is_segment, apart_in, is_port, edge_of, edges_of, closes_in, painted_by, first_loop, first_apart, first_graph_fault};
ghost use Rattle.layout.specs.Joined.{counted_up, painted, colours};
ghost use Rattle.layout_file.specs.Sites.{seen};

use crate::fault::{Key, LayoutCode, LayoutFault};
use crate::lines::place_of;
use crate::rules::Shape;
use crate::sites::Site;
use crate::tree::text;
use layout::Edge;
use lists::OutOfMemory;
use std::alloc::Global;

fn is_port(shape: Shape) -> bool
    ensures { result ≡ is_port shape }
{
    matches!(shape, Shape::Port)
}

/// A port as an edge, where the segments have these names.
#[tactic(auto, unfolding(crate::specs::GraphFaults::edge_of))]
fn port_edge(segments: &[&str], site: &Site) -> Result<Edge, OutOfMemory>
    ensures { IfOk result (λ edge. edge ≡ edge_of (map (λ s. s.now) segments.now) (seen site.now)) }
{
    let repeater = (site.row as usize).saturating_sub(1);
    let from = segments.len().checked_add(repeater).ok_or(OutOfMemory)?;
    let to = place_of(segments, text(site.members, Key::Segment))? as usize;
    Ok(Edge { from, to })
}

/// A colour of its own for each part.
fn first_colours(alloc: Global, parts: usize) -> Result<Vec<usize>, OutOfMemory>
    ensures { IfOk result (λ colours. colours.items ≡ counted_up parts) }
{
    let mut colours = Vec::new(alloc);
    for part in 0..parts {
        colours.push(part)?;
    }
    Ok(colours)
}

fn colour_of(colours: &[usize], part: usize) -> usize
    ensures { result ≡ slice_index colours.now part }
{
    match colours.get(part) {
        Some(colour) => *colour,
        None => 0,
    }
}

fn is_same_colour(colours: &[usize], a: usize, b: usize) -> bool
    ensures { result ≡ (slice_index colours.now a == slice_index colours.now b) }
{
    colour_of(colours, a) == colour_of(colours, b)
}

/// The colour of the edge's one end becomes that of its other end.
fn paint(alloc: Global, colours: &[usize], edge: &Edge) -> Result<Vec<usize>, OutOfMemory>
    ensures { IfOk result (λ v. v.items ≡ painted colours.now edge.now) }
{
    let old = colour_of(colours, edge.from);
    let new = colour_of(colours, edge.to);
    let painted: Vec<usize> = colours
        .iter()
        .map(|c| if *c == old { new } else { *c })
        .collect(alloc)?;
    Ok(painted)
}

/// The table is a port whose ends have one colour already.
#[tactic(auto, unfolding(crate::specs::GraphFaults::closes_in))]
fn closes_in(colours: &[usize], segments: &[&str], site: &Site) -> Result<bool, OutOfMemory>
    ensures { IfOk result (λ closes. closes ≡ closes_in colours.now (map (λ s. s.now) segments.now) (seen site.now)) }
{
    if !is_port(site.shape) {
        return Ok(false);
    }
    let edge = port_edge(segments, site)?;
    Ok(is_same_colour(colours, edge.from, edge.to))
}

/// The colours after the table's edge, where it is a port.
#[tactic(auto, unfolding(crate::specs::GraphFaults::painted_by))]
fn painted_by(
    alloc: Global,
    colours: Vec<usize>,
    segments: &[&str],
    site: &Site,
) -> Result<Vec<usize>, OutOfMemory>
    ensures { IfOk result (λ v. v.items ≡ painted_by colours.items (map (λ s. s.now) segments.now) (seen site.now)) }
{
    if !is_port(site.shape) {
        return Ok(colours);
    }
    paint(alloc, &colours, &port_edge(segments, site)?)
}

/// The first port that closes a loop.
#[tactic(auto, using(crate::proofs::ColoursByTables::first_loop_in))]
fn first_loop(
    alloc: Global,
    parts: usize,
    segments: &[&str],
    sites: &[Site],
) -> Result<Option<LayoutFault>, OutOfMemory>
    ensures { IfOk result (λ fault. fault ≡ first_loop parts (map (λ s. s.now) segments.now) [] (map seen sites.now)) }
{
    let mut colours = first_colours(alloc, parts)?;
    for site in sites {
        if closes_in(&colours, segments, site)? {
            return Ok(Some(site.fault(LayoutCode::Loop, Key::Segment)));
        }
        colours = painted_by(alloc, colours, segments, site)?;
    }
    Ok(None)
}

/// One colour for each part: two have one colour exactly where some path of ports joins them.
#[tactic(auto, using(crate::proofs::ColoursByTables::colours_by_all))]
fn all_colours(
    alloc: Global,
    parts: usize,
    segments: &[&str],
    sites: &[Site],
) -> Result<Vec<usize>, OutOfMemory>
    ensures { IfOk result (λ v. v.items ≡ colours parts (edges_of (map (λ s. s.now) segments.now) (map seen sites.now))) }
{
    let mut colours = first_colours(alloc, parts)?;
    for site in sites {
        colours = painted_by(alloc, colours, segments, site)?;
    }
    Ok(colours)
}

fn is_segment(shape: Shape) -> bool
    ensures { result ≡ is_segment shape }
{
    matches!(shape, Shape::Segment)
}

/// The table is a segment of another colour than the first one.
#[tactic(auto, unfolding(crate::specs::GraphFaults::apart_in))]
fn is_apart(colours: &[usize], site: &Site) -> bool
    ensures { result ≡ apart_in colours.now (seen site.now) }
{
    is_segment(site.shape) && !is_same_colour(colours, 0, (site.row as usize).saturating_sub(1))
}

/// The first segment that no path joins to the first one.
#[tactic(auto, using(crate::proofs::ColoursByTables::first_apart_colours))]
fn first_apart(
    alloc: Global,
    parts: usize,
    segments: &[&str],
    sites: &[Site],
) -> Result<Option<LayoutFault>, OutOfMemory>
    ensures { IfOk result (λ fault. fault ≡ first_apart parts (edges_of (map (λ s. s.now) segments.now) (map seen sites.now)) (map seen sites.now)) }
{
    let colours = all_colours(alloc, parts, segments, sites)?;
    for site in sites {
        if is_apart(&colours, site) {
            return Ok(Some(site.fault(LayoutCode::Apart, Key::Name)));
        }
    }
    Ok(None)
}

/// A loop, or a segment apart.
#[tactic(auto, unfolding(crate::specs::GraphFaults::first_graph_fault))]
pub fn first_graph_fault(
    alloc: Global,
    repeaters: usize,
    segments: &[&str],
    sites: &[Site],
) -> Result<Option<LayoutFault>, OutOfMemory>
    ensures { IfOk result (λ fault. fault ≡ first_graph_fault repeaters (map (λ s. s.now) segments.now) (map seen sites.now)) }
{
    let parts = segments.len().checked_add(repeaters).ok_or(OutOfMemory)?;
    if let Some(fault) = first_loop(alloc, parts, segments, sites)? {
        return Ok(Some(fault));
    }
    first_apart(alloc, parts, segments, sites)
}
