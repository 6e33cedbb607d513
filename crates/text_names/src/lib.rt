//! The names and patterns in commands and header fields: group names, message-ids, hosts, numbers, ranges and wildmats.
//! `specs/Names.antt` of the crate `model` defines each of them. Also what an operator says of a new group.
#![tactic(auto)]

mod checks;
mod descriptions;
mod patterns;
mod values;

pub use checks::{
    GROUP_NAME_LIMIT, HOST_LIMIT, MESSAGE_ID_LIMIT, NUMBER_LIMIT, is_group_name, is_host,
    is_message_id, is_of_host, is_visible, number_of, range_of,
};
pub use descriptions::{DESCRIPTION_LIMIT, Description, is_description};
pub use patterns::{is_wildmat, wildmat_matches};
pub use values::{GroupName, GroupRequest, MessageId, NameError, Wildmat};
