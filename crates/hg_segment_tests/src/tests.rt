mod made;
mod names;
mod policies;
mod seats;
mod two_parts;
