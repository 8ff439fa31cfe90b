// 6: the point lists. Rows are marked as the lists name them; that B different mentions leave none of B rows out is a theorem.
ghost use Rattle.std.specs.Prelude.{◌≡◌, ◌+◌, ◌-◌, ◌*◌, ◌^◌, ◌<◌, ◌≤◌, not, true, length, get_or, replicate};
ghost use Rattle.field.specs.Count.{lowest};
ghost use Rattle.network.specs.Lists.{none, falls, offsets_rise, lists_hold};
ghost use Rattle.network.specs.Network.{rows, second_end};
ghost use Rattle.network.specs.Refusals.{verdict, list_tests};
ghost use Rattle.network.specs.inner.Marks.{Marked, has_unfit, unfit};
ghost use Rattle.network.specs.inner.Sound.{ListLengths, OffsetsSound};

use crate::answers::refused_if;
use crate::{Cause, Refusal, Shape, Span};
use std::marker::Model;

// The rows' ends and the point lists, as a type: a value stands for slices that have their lengths.
#[derive(Drop)]
struct PointLists<'a> {
    shape: Shape,
    ends: &'a [usize],
    offsets: &'a [usize],
    listed: &'a [usize],
}

impl<'a> Model for PointLists<'a> {
    ghost use Rattle.network.specs.Network.{Links, links};
    ghost use Rattle.network.specs.inner.Sound.{ListLengths};

    ghost Value = { Links };

    ghost view = { λ l. links l.shape l.ends.now l.offsets.now l.listed.now };

    ghost invariant = { λ l. ListLengths (links l.shape l.ends.now l.offsets.now l.listed.now) };
}

impl<'a> PointLists<'a> {
    fn shape(&self) -> Shape
        ensures value { result ≡ self.now.shape }
        ensures lengths { ListLengths self.now }
        ensures points_bound { result.points < 2 ^ 64 - 1 }
    {
        self.shape
    }

    // The second number of a bearing's row.
    fn point(&self, row: usize) -> usize
        requires { row < self.now.shape.bearings }
        ensures { result ≡ second_end self.now.ends row }
    {
        let ends = self.ends;
        ends[2 * row + 1]
    }

    // Where the list of point p begins; behind the last point, where the lists end.
    fn offset(&self, p: usize) -> usize
        requires { p ≤ self.now.shape.points }
        ensures { result ≡ get_or self.now.offsets p 0 }
    {
        let offsets = self.offsets;
        offsets[p]
    }

    // The row at place k of the lists.
    fn row(&self, k: usize) -> usize
        requires { k < self.now.shape.bearings }
        ensures { result ≡ get_or self.now.listed k 0 }
    {
        let listed = self.listed;
        listed[k]
    }
}

// The lowest point whose list ends before it starts.
fn find_fall(lists: &PointLists<'_>) -> Option<usize>
    ensures { result ≡ lowest (falls lists.now.offsets) lists.now.shape.points }
{
    (0..lists.shape().points).find(|&p| lists.offset(p + 1) < lists.offset(p))
}

fn offsets_rise(lists: &PointLists<'_>) -> bool
    ensures value { result ≡ offsets_rise lists.now.shape.points lists.now.shape.bearings lists.now.offsets }
    ensures lengths { ListLengths lists.now }
{
    let s = lists.shape();
    let rise = find_fall(lists).is_none();
    (lists.offset(0) == 0) & (lists.offset(s.points) == s.bearings) & rise
}

// (`Marked` is asked: as a type over the marks it would keep the place and the answer so far, which no function reads.)
// Marks the row at place k of the lists, which is under point p: whether it is a bearing of p's that was not marked before.
fn mark_row(lists: &PointLists<'_>, p: usize, k: usize, marks: &mut [usize]) -> bool
    requires k_bound { k < lists.now.shape.bearings }
    requires marked { Marked lists.now.shape.bearings lists.now.listed true k marks.old }
    ensures value { result ≡ not (unfit lists.now.shape.bearings lists.now.ends lists.now.listed p k) }
    ensures marked_after { Marked lists.now.shape.bearings lists.now.listed result (k + 1) marks.new }
{
    let b = lists.shape().bearings;
    let row = lists.row(k);
    if b <= row {
        return false;
    }
    if lists.point(row) != p {
        return false;
    }
    if marks[row] != 0 {
        return false;
    }
    marks[row] = 1;
    true
}

// Marks the rows at the places k, under point p, as long as they are fit: whether all are.
fn mark_list(lists: &PointLists<'_>, p: usize, k: Span, marks: &mut [usize]) -> bool
    requires size_bound { k.first + k.size ≤ lists.now.shape.bearings }
    requires marked { Marked lists.now.shape.bearings lists.now.listed true k.first marks.old }
    ensures value { result ≡ none (λ i. unfit lists.now.shape.bearings lists.now.ends lists.now.listed p (k.first + i)) k.size }
    ensures marked_after { Marked lists.now.shape.bearings lists.now.listed result (k.first + k.size) marks.new }
{
    for i in 0..k.size {
        if !mark_row(lists, p, k.first + i, marks) {
            return false;
        }
    }
    true
}

// Point p's list.
fn mark_point(lists: &PointLists<'_>, p: usize, marks: &mut [usize]) -> bool
    requires p_bound { (p < lists.now.shape.points) × (p + 1 < 2 ^ 64) }
    requires rises { (get_or lists.now.offsets p 0 ≤ get_or lists.now.offsets (p + 1) 0) × (get_or lists.now.offsets (p + 1) 0 ≤ lists.now.shape.bearings) }
    requires marked { Marked lists.now.shape.bearings lists.now.listed true (get_or lists.now.offsets p 0) marks.old }
    ensures value { result ≡ not (has_unfit lists.now.shape.bearings lists.now.ends lists.now.offsets lists.now.listed p) }
    ensures marked_after { Marked lists.now.shape.bearings lists.now.listed result (get_or lists.now.offsets (p + 1) 0) marks.new }
{
    let first = lists.offset(p);
    let k = Span {
        first,
        size: lists.offset(p + 1) - first,
    };
    mark_list(lists, p, k, marks)
}

// All lists.
fn mark_points(lists: &PointLists<'_>, marks: &mut [usize]) -> bool
    requires offsets_sound { OffsetsSound lists.now.shape.points lists.now.shape.bearings lists.now.offsets }
    requires marked { Marked lists.now.shape.bearings lists.now.listed true 0 marks.old }
    ensures value { result ≡ none (has_unfit lists.now.shape.bearings lists.now.ends lists.now.offsets lists.now.listed) lists.now.shape.points }
    ensures marks_len { length marks.new ≡ lists.now.shape.bearings }
{
    for p in 0..lists.shape().points {
        if !mark_point(lists, p, marks) {
            return false;
        }
    }
    true
}

// The rule, with a mark for each bearing, that may hold anything.
fn lists_hold(lists: &PointLists<'_>, marks: &mut [usize]) -> bool
    requires { length marks.old ≡ lists.now.shape.bearings }
    ensures value { result ≡ lists_hold lists.now.shape.points lists.now.shape.bearings lists.now.ends lists.now.offsets lists.now.listed }
    ensures marks_len { length marks.new ≡ lists.now.shape.bearings }
{
    if !offsets_rise(lists) {
        return false;
    }
    marks.fill(0);
    mark_points(lists, marks)
}

// 6. The marks end all zero.
pub(crate) fn check_lists(
    s: Shape,
    ends: &[usize],
    offsets: &[usize],
    listed: &[usize],
    marks: &mut [usize],
) -> Result<(), Refusal>
    requires ends_len { length ends.now ≡ 2 * rows s }
    requires offsets_len { length offsets.now ≡ s.points + 1 }
    requires listed_len { (length listed.now ≡ s.bearings) × (length marks.old ≡ s.bearings) }
    ensures value { result ≡ verdict (list_tests s ends.now offsets.now listed.now) }
    ensures marks_after { marks.new ≡ replicate s.bearings 0 }
{
    let lists = PointLists {
        shape: s,
        ends,
        offsets,
        listed,
    };
    let hold = lists_hold(&lists, marks);
    marks.fill(0); // whatever 6 says
    refused_if(Cause::PointLists, !hold)
}
