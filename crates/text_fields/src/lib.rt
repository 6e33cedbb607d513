//! The lines of a text, and the fields of its header with their contents (RFC 5536, 2.2). `specs/Article.antt` of the
//! crate `model` defines each word.
#![tactic(auto)]

mod contents;
mod fields;
mod text_lines;

pub use contents::{
    count, find_field, id_in_field, is_blank_field, push_content, trim, unfold, value_of,
};
pub use fields::{fields_of, has_fields_alone, name_of, push_fields};
pub use text_lines::{has_lines_alone, header_length, line_count, line_length};
