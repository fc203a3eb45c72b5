mod asked;
mod at_once;
mod damaged_parts;
mod each_step;
mod policies;
mod refused;
mod runs;
