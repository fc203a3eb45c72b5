mod asked;
mod copies;
mod kept_names;
mod traces;
mod verdicts;
