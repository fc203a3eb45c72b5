mod asked;
mod runs;
