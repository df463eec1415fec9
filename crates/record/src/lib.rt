// The three status messages of a player as records, read from its messages and written into its lines.
#![tactic(auto)]

mod fields;
mod laws;
mod mode;
mod overview;
mod play_status;
mod play_status_write;
mod span;
mod title_name;

pub use laws::records_read_back;
pub use mode::{PlayMode, UnknownMode};
pub use overview::BrowseResultsOverview;
pub use play_status::PlayStatus;
pub use span::Span;
pub use title_name::TitleName;
