// The C face of the library: each public function of `shelf` under its name with the prefix `shelf_`. A slice is a pointer and a length.
// The result is 0 for an answer or the number of the refusal; further results are written through pointers. include/shelf.h says it all
// in C's words.
#![tactic(auto)]

mod counted; // counted.rt: figures and contents
mod judged; // judged.rt: the check
mod listed; // listed.rt: a listing for the board maker
mod shelves; // shelves.rt: two files
mod run; // run.rt: evaluation, of one row and of many, and flattening
mod withdrawn; // withdrawn.rt: the strict check and the rewriting
mod texts; // texts.rt: a text in the list form
mod written; // written.rt: modules to order
