//! Memories of which some writes fail, as no command has them: tables are replaced past these writes.

mod devices;
mod scripts;
mod sessions;
