use crate::links::Links;

// The lane count of a plan file and its two tables.
#[derive(Clone, Copy)]
pub struct Tables<'a> {
    pub hops: &'a [u8],
    pub lane_count: u8,
    pub lanes: &'a [u8],
}

// Its three bodies, taken apart.
#[derive(Clone, Copy)]
pub struct Bodies<'a> {
    pub links: Links<'a>,
    pub tables: Tables<'a>,
}
