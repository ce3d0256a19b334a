// Lines of reports, and what reports say of three stores.

mod contents;
mod lines;
