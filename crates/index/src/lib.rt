// Chains of the rows of a table that have the same key; of them the index of a graph: of each node its edges and its properties, in the
// order of the graph; and in the schema's area, of each first number the rows of H, G and M.
#![tactic(auto)]

ghost use Rattle.std.specs.Prelude.{◌≡◌, cond, ◌+◌, ◌≤◌, ◌<◌, length, ltb};
ghost use Rattle.rules.specs.Text.{rows, lines};
ghost use Rattle.rules.proofs.Clean.{Each};
ghost use Rattle.tables.specs.Read.{cell};
ghost use Rattle.tables.specs.Fill.{Plain, SchemaFits};
ghost use Rattle.index.specs.Index.{led_to, keys, Rowed, Blank, row_linked, LinksLaid, sources_at, index_at};
ghost use Rattle.index.specs.Buckets.{bucket_at, links_end, schema_linked, Linkable};

use tables::FormedText;

// Where the links of `H`, of `G` and of `M` stand in the schema's area.
pub const HAS_LINKS: usize = 9992;

pub const TAKES_LINKS: usize = 11528;

pub const MEMBER_LINKS: usize = 13064;

// The row that a link leads to, n where it leads to none: that, and no `None`, is what the definitions of the index say (`led_to`,
// `own_from`), and each loop along a chain ends at n.
#[tactic(auto, using(crate::proofs::Links::led_laws))]
fn led_to(n: usize, link: u32) -> usize
    ensures { result ≡ led_to n link }
{
    if link == 0 {
        return n;
    }
    link as usize - 1
}

// The first row of key u, by the links from `at` on of a table of n rows; n where it has none.
#[tactic(auto, unfolding(tables::specs::Read::cell))]
pub fn first_row(x: &[u32], at: usize, n: usize, u: u32) -> usize
    requires at_in_bounds { at + 1536 ≤ length x.now }
    requires at_bound { at ≤ 13064 }
    ensures { result ≡ cond (ltb u 512) (led_to n (cell x.now (at + u))) n }
{
    if u < 512 {
        return led_to(n, x[at + u as usize]);
    }
    n
}

// The next row of the key of row j.
#[tactic(auto, unfolding(tables::specs::Read::cell))]
pub fn next_row(x: &[u32], at: usize, n: usize, j: usize) -> usize
    requires at_in_bounds { at + 1536 ≤ length x.now }
    requires at_bound { at ≤ 13064 }
    requires j_bound { j < 1024 }
    ensures { result ≡ led_to n (cell x.now (at + 512 + j)) }
{
    led_to(n, x[at + 512 + j])
}

// Puts row j before the rows of a key: the key's first link becomes the row's next, and the row becomes the key's first.
#[tactic(auto, unfolding(tables::specs::Read::cell, crate::specs::Index::row_linked))]
fn link_row(x: &mut [u32], at: usize, j: usize, key: usize)
    requires at_in_bounds { at + 1536 ≤ length x.old }
    requires at_bound { at ≤ 13064 }
    requires j_bound { j < 1024 }
    requires key_bound { key < 512 }
    ensures { x.new ≡ row_linked at j key x.old }
{
    let first = x[at + key];
    x[at + 512 + j] = first;
    x[at + key] = (j + 1) as u32;
}

// Lays the links of a wide table of n rows where zeros stand, from the last row to the first.
fn lay_links(a: &[u32], base: usize, n: usize, x: &mut [u32], at: usize)
    requires rowed { Rowed a.now base n }
    requires blank { Blank x.old at }
    ensures { LinksLaid (sources_at a.now base n) at x.old x.new }
{
    for j in (0..n).rev() {
        let node = tables::row_cell(a, base, 14, j, 2);
        link_row(x, at, j, node as usize);
    }
}

// Lays the index of the edges and properties that two areas hold.
pub fn lay_index(g: &[u32], p: &[u32], x: &mut [u32])
    requires rowed { Rowed g.now 1544 (cell g.now 1) }
    requires rowed_2 { Rowed p.now 8 (cell p.now 0) }
    requires in_bounds { 3072 ≤ length x.old }
    ensures { x.new ≡ index_at (length x.old) g.now p.now }
{
    tables::clear(x);
    lay_links(g, 1544, g[1] as usize, x, 0);
    lay_links(p, 8, p[0] as usize, x, 1536);
}

// Lays the links of a narrow table of n rows behind it, where zeros stand, from the last row to the first. Apart from `lay_links`, since
// it reads the area that it writes: one function for both would take the area twice.
fn lay_buckets(a: &mut [u32], base: usize, n: usize, at: usize)
    requires { Linkable a.old base n at }
    ensures { LinksLaid (keys (bucket_at a.old base) n) at a.old a.new }
{
    for j in (0..n).rev() {
        let first = tables::row_cell(a, base, 3, j, 1);
        link_row(a, at, j, (first % 512) as usize);
    }
}

// Lays the rows of a schema out: its tables, and the links of those that are looked through by their first numbers.
pub fn lay_schema(s: &FormedText, a: &mut [u32])
    requires schema_fits { SchemaFits (rows s.now.bytes.now) }
    requires links_end_in_bounds { links_end ≤ length a.old }
    ensures { a.new ≡ schema_linked (length a.old) (rows s.now.bytes.now) }
{
    tables::lay_schema(s, a);
    let has = a[3] as usize;
    let takes = a[4] as usize;
    let members = a[5] as usize;
    lay_buckets(a, 776, has, HAS_LINKS);
    lay_buckets(a, 3848, takes, TAKES_LINKS);
    lay_buckets(a, 6920, members, MEMBER_LINKS);
}
