mod apart;
mod asked;
mod same;
