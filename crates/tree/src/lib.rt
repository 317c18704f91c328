// The words of a SWITCH's CASEs as a digital search tree. A word's node is its place among the words, the first is the root,
// and a node of depth d parts the words below it by their bit d: a search looks at no more than 33 nodes.
#![tactic(auto)]

ghost use Rattle.std.specs.Prelude.{◌≡◌, ◌<◌, set};
ghost use Rattle.tree.specs.Search.{slot_of, most_nodes, place_in, is_here, hung};

// Where the search for a word ends.
#[derive(Clone, Copy)]
pub enum Place {
    // At its node.
    Here,
    // There is no node yet.
    Root,
    // At a link that holds no node, from which the word's would hang.
    Missing(usize),
}

const MOST_NODES: u32 = 33;

// The link of a node below which x lies. At depth 32 that goes by the bit above x.
fn slot_of(node: u16, depth: u32, x: u32) -> usize
    requires { depth < most_nodes }
    ensures { result ≡ slot_of node depth x }
{
    2 * node as usize + ((x as u64 >> depth) % 2) as usize
}

// Where x is, or would hang, among the words from a place to `end`.
#[tactic(auto, using(crate::proofs::Steps::ends))]
pub fn place_of(values: &[u32; 1024], links: &[u16; 2048], from: u16, end: u16, x: u32) -> Place
    ensures { result ≡ place_in values.now links.now from end x }
{
    if from == end {
        return Place::Root;
    }
    let mut node = from;
    for depth in 0..MOST_NODES {
        if values.get(node as usize).copied().unwrap_or(0) == x {
            return Place::Here;
        }
        let slot = slot_of(node, depth, x);
        match links.get(slot).copied().unwrap_or(0) {
            0 => return Place::Missing(slot),
            next => node = next,
        }
    }
    Place::Here
}

// Whether x is among the words from a place to `end`.
pub fn has_value(values: &[u32; 1024], links: &[u16; 2048], from: u16, end: u16, x: u32) -> bool
    ensures { result ≡ is_here (place_in values.now links.now from end x) }
{
    matches!(place_of(values, links, from, end, x), Place::Here)
}

// Makes a link hold a node.
fn set_link(links: &mut [u16], slot: usize, node: u16)
    ensures { links.new ≡ set links.old slot node }
{
    // The library does not say what a slice holds after a write through `get_mut`.
    if slot < links.len() {
        links[slot] = node;
    }
}

// Hangs a new node where a search ended. Its own links may be those of a closed SWITCH's node, so they are cleared.
pub fn hang(links: &mut [u16; 2048], place: Place, node: u16)
    ensures { links.new ≡ hung links.old place node }
{
    let first = 2 * node as usize;
    set_link(links, first, 0);
    set_link(links, first + 1, 0);
    if let Place::Missing(slot) = place {
        set_link(links, slot, node);
    }
}
