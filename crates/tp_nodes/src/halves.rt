//! Entries that move between two siblings.

ghost use Rattle.std.specs.Prelude.{◌≡◌, ◌+◌, ◌*◌, ◌/◌, ◌<◌, ◌≤◌, ◌++◌, length, take, drop};
ghost use Rattle.std.specs.List.Sorted.{IsStrictlyIncreasing};
ghost use Rattle.tp_layout.specs.Node.{IsNode, is_long, keys, least_entries, most_entries};
ghost use Rattle.tp_layout.specs.Value.{node_value};

use arrayvec::ArrayVec;
use tp_layout::{Entry, MOST_ENTRIES, Node};
use tp_model::Mb;

type Entries = ArrayVec<Entry, MOST_ENTRIES>;

/// Adds entries at the end.
fn append(entries: &mut Entries, more: &[Entry])
    requires { length entries.old.items + length more.now ≤ 252 }
    ensures { entries.new.items ≡ entries.old.items ++ more.now }
{
    let appended = entries.try_extend_from_slice(more);
    let fits = appended.is_ok();
    prove!(fits);
}

/// Cuts off the entries from an index on, and gives them back.
fn split_off(entries: &mut Entries, at: usize) -> Entries
    requires { at ≤ length entries.old.items }
    ensures front { entries.new.items ≡ take at entries.old.items }
    ensures rest { result.items ≡ drop at entries.old.items }
{
    let mut rest = ArrayVec::new();
    append(&mut rest, &entries.as_slice()[at..]);
    entries.truncate(at);
    rest
}

/// Splits a full node in two halves. The upper one is given back, for the block of number `own`.
pub fn split(node: &mut Node, own: Mb) -> Node
    requires good { IsNode (node_value node.old) }
    requires full { length node.old.entries.items ≡ most_entries (is_long node.old.kind node.old.level) }
    ensures left { node_value node.new ≡ record (node_value node.old) { entries = take (least_entries (is_long node.old.kind node.old.level)) node.old.entries.items } }
    ensures right { node_value result ≡ record { kind = node.old.kind; level = node.old.level; own = own; entries = drop (least_entries (is_long node.old.kind node.old.level)) node.old.entries.items } }
    ensures whole { node.new.entries.items ++ result.entries.items ≡ node.old.entries.items }
    ensures left_len { length node.new.entries.items ≡ least_entries (is_long node.old.kind node.old.level) }
    ensures right_len { length result.entries.items ≡ least_entries (is_long node.old.kind node.old.level) }
    ensures left_good { IsNode (node_value node.new) }
    ensures right_good { IsNode (node_value result) }
{
    let half = node.entries.len() / 2;
    let entries = split_off(&mut node.entries, half);
    Node {
        kind: node.kind,
        level: node.level,
        own,
        entries,
    }
}

/// Adds the entries of the right sibling, which has the greater keys, to a node.
pub fn join(node: &mut Node, right: &Node)
    requires good { IsNode (node_value node.old) }
    requires right_good { IsNode (node_value right.now) }
    requires kind { right.now.kind ≡ node.old.kind }
    requires level { right.now.level ≡ node.old.level }
    requires room { length node.old.entries.items + length right.now.entries.items ≤ most_entries (is_long node.old.kind node.old.level) }
    requires ascending { IsStrictlyIncreasing (keys (node.old.entries.items ++ right.now.entries.items)) }
    ensures value { node_value node.new ≡ record (node_value node.old) { entries = node.old.entries.items ++ right.now.entries.items } }
    ensures good { IsNode (node_value node.new) }
{
    append(&mut node.entries, right.entries.as_slice());
}

/// Moves the last entries of the left list to the front of the right one.
fn move_up(left: &mut Entries, right: &mut Entries, at: usize)
    requires within { at ≤ length left.old.items }
    requires room { length left.old.items + length right.old.items ≤ at + 252 }
    ensures left { left.new.items ≡ take at left.old.items }
    ensures right { right.new.items ≡ drop at left.old.items ++ right.old.items }
{
    let mut rest = split_off(left, at);
    append(&mut rest, right.as_slice());
    *right = rest;
}

/// Moves the first entries of the right list to the end of the left one.
fn move_down(left: &mut Entries, right: &mut Entries, count: usize)
    requires within { count ≤ length right.old.items }
    requires room { length left.old.items + count ≤ 252 }
    ensures left { left.new.items ≡ left.old.items ++ take count right.old.items }
    ensures right { right.new.items ≡ drop count right.old.items }
{
    let rest = split_off(right, count);
    append(left, right.as_slice());
    *right = rest;
}

/// Shares the entries of two lists out evenly.
fn even_out(left: &mut Entries, right: &mut Entries)
    ensures left { left.new.items ≡ take ((length left.old.items + length right.old.items) / 2) (left.old.items ++ right.old.items) }
    ensures right { right.new.items ≡ drop ((length left.old.items + length right.old.items) / 2) (left.old.items ++ right.old.items) }
{
    let count = left.len();
    let half = (count + right.len()) / 2;
    if half < count {
        move_up(left, right, half);
    } else {
        move_down(left, right, half - count);
    }
}

/// Shares the entries of two siblings out evenly, of which the right one has the greater keys. Both then have the
/// least number of entries that a node needs.
pub fn refill(left: &mut Node, right: &mut Node)
    requires left_good { IsNode (node_value left.old) }
    requires right_good { IsNode (node_value right.old) }
    requires kind { right.old.kind ≡ left.old.kind }
    requires level { right.old.level ≡ left.old.level }
    requires enough { 2 * least_entries (is_long left.old.kind left.old.level) ≤ length left.old.entries.items + length right.old.entries.items }
    requires ascending { IsStrictlyIncreasing (keys (left.old.entries.items ++ right.old.entries.items)) }
    ensures left { node_value left.new ≡ record (node_value left.old) { entries = take ((length left.old.entries.items + length right.old.entries.items) / 2) (left.old.entries.items ++ right.old.entries.items) } }
    ensures right { node_value right.new ≡ record (node_value right.old) { entries = drop ((length left.old.entries.items + length right.old.entries.items) / 2) (left.old.entries.items ++ right.old.entries.items) } }
    ensures whole { left.new.entries.items ++ right.new.entries.items ≡ left.old.entries.items ++ right.old.entries.items }
    ensures left_filled { least_entries (is_long left.old.kind left.old.level) ≤ length left.new.entries.items }
    ensures right_filled { least_entries (is_long left.old.kind left.old.level) ≤ length right.new.entries.items }
    ensures left_good { IsNode (node_value left.new) }
    ensures right_good { IsNode (node_value right.new) }
{
    even_out(&mut left.entries, &mut right.entries);
}
