//! A cluster as it is kept, its devices beside its links: what their tables say of it, and what holds of it.

mod laws;
mod sound;

pub use laws::sharing_is_having;
pub use sound::agreed_is_sound;
