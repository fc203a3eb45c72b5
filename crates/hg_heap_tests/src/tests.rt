mod heaps;
mod one_heap;
mod parting;
mod releases;
mod steps;
mod taking;
