// What the programs share: the first bytes of standard input, and bytes shown as text, as they are or with escapes.
#![tactic(auto)]

mod input;
mod spelled;
mod text;

pub use input::first_bytes;
pub use spelled::Spelled;
pub use text::Text;
