// The two counts by which templates and creations of EDTs speak of a count that they do not name.

/// The count that a template leaves open.
pub const EDT_PARAM_UNK: u64 = 4_294_967_295;

/// The count by which a creation asks for the template's own.
pub const EDT_PARAM_DEF: u64 = 4_294_967_294;
